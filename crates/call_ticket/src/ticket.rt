//! One call of a request, as its caller holds it.

ghost use Rattle.std.specs.Prelude.{◌≡◌, ℕ, ◌+◌, ◌*◌, ◌<◌, ◌≤◌, List, [], ◌++◌, length, vec_len, vec_capacity, option_map, false, IsSome, IfOk, OnOk, OnErr, All};
ghost use Rattle.crash_base.specs.declared.rows.TheConstants.{MAX_ROW_BYTES};
ghost use Rattle.crash_base.specs.Rows.{row_in};
ghost use Rattle.journal_model.specs.Calls.{is_touched, is_put, is_marked};
ghost use Rattle.journal_model.specs.Limits.{call_bytes, value_bytes};
ghost use Rattle.component_pool.specs.Pool.{AreGivenBack, entered_in};
ghost use Rattle.call_ticket.specs.Ticket.{ticket_begun, top, IsFirst, with_touch, with_frame, ticket_closed, ticket_left, ticket_read, ticket_kept, is_full_for};
ghost use Rattle.call_ticket.specs.Within.{AreOfOtherGroups, IsShortMark, IsShortWrite};

use crate::limits::{MAX_FRAMES, MAX_MARKS, MAX_STEPS, MAX_WRITES};
use crate::parts::TicketParts;
use crate::search::{add_write, bytes_of_write, is_marked};
use component_pool::{InstanceNo, Pool};
use crash_base::{
    ComponentNo, GroupNo, Items, OutOfMemory, Place, RequestNo, RowBytes, RowId, RowWrite, WorkerNo,
};
use journal_model::{Mark, ReadMark, Touch, read_bytes, written_bytes};
use std::alloc::Global;
use std::marker::Model;

/// One call of a request. It cannot be cloned, and has room for all that it may hold from its making.
#[derive(Drop)]
pub struct Ticket {
    request: RequestNo,
    worker: WorkerNo,
    at: Place,
    frames: Vec<ComponentNo>,
    instances: Vec<InstanceNo>,
    touched: Vec<Touch>,
    marks: Vec<Mark>,
    writes: Vec<RowWrite>,
    steps: u64,
}

impl Model for Ticket {
    ghost use Rattle.std.specs.Prelude.{vec_capacity};
    ghost use Rattle.call_ticket.specs.Ticket.{TicketValue};
    ghost use Rattle.call_ticket.specs.Within.{IsWithin, HasRoom};

    ghost Value = { TicketValue };

    ghost view = { λ t. record {
      call = record {
        request = t.request;
        worker = t.worker;
        at = t.at;
        frames = t.frames.items;
        touched = t.touched.items;
        marks = t.marks.items;
        writes = t.writes.items;
        steps = t.steps;
      };
    } };

    ghost invariant = { λ t.
        IsWithin t.frames.items t.instances.items t.touched.items t.marks.items t.writes.items t.steps
        × HasRoom (record {
          frames = vec_capacity t.frames;
          instances = vec_capacity t.instances;
          touches = vec_capacity t.touched;
          marks = vec_capacity t.marks;
          writes = vec_capacity t.writes;
        }) };
}

/// Moves all items to the end of a vector that has the room, and takes no memory.
fn move_all<T>(from: &mut Vec<T>, into: &mut Vec<T>)
    requires room { vec_len into.old + vec_len from.old ≤ vec_capacity into.old }
    ensures moved { into.new.items ≡ into.old.items ++ from.old.items }
    ensures left { from.new.items ≡ [] }
    ensures capacity { vec_capacity from.new ≡ vec_capacity from.old }
{
    into.append(from).unwrap()
}

/// Adds a touch where there is one.
fn add_touch(touched: &mut Vec<Touch>, touch: Option<Touch>)
    requires { vec_len touched.old < vec_capacity touched.old }
    ensures items { touched.new.items ≡ with_touch touched.old.items touch }
    ensures few { vec_len touched.new ≤ vec_len touched.old + 1 }
    ensures capacity { vec_capacity touched.new ≡ vec_capacity touched.old }
{
    if let Some(touch) = touch {
        touched.push_reserved(touch);
    }
}

impl Ticket {
    /// A call that has done nothing yet. It takes room for `MAX_FRAMES` frames, `MAX_STEPS` groups,
    /// `MAX_MARKS` reads and `MAX_WRITES` writes, and no later step takes any.
    pub fn new(
        alloc: Global,
        request: RequestNo,
        worker: WorkerNo,
        at: Place,
    ) -> Result<Ticket, OutOfMemory>
        ensures { IfOk result (λ ticket. ticket ≡ ticket_begun request worker at) }
    {
        Ok(Ticket {
            request,
            worker,
            at,
            frames: Vec::with_capacity(alloc, MAX_FRAMES)?,
            instances: Vec::with_capacity(alloc, MAX_FRAMES)?,
            touched: Vec::with_capacity(alloc, MAX_STEPS as usize)?,
            marks: Vec::with_capacity(alloc, MAX_MARKS)?,
            writes: Vec::with_capacity(alloc, MAX_WRITES)?,
            steps: 0,
        })
    }

    /// Begins another call in the room of this one, which has ended. It drops what is there, and takes no
    /// memory.
    pub fn renew(&mut self, request: RequestNo, worker: WorkerNo, at: Place)
        ensures { self.new ≡ ticket_begun request worker at }
    {
        self.request = request;
        self.worker = worker;
        self.at = at;
        self.frames.clear();
        self.instances.clear();
        self.touched.clear();
        self.marks.clear();
        self.writes.clear();
        self.steps = 0;
    }

    /// The request that makes this call.
    pub fn request(&self) -> RequestNo
        ensures { result ≡ self.now.call.request }
    {
        self.request
    }

    /// The worker that makes this call.
    pub fn worker(&self) -> WorkerNo
        ensures { result ≡ self.now.call.worker }
    {
        self.worker
    }

    /// The length of the journal at the begin of this call.
    pub fn at(&self) -> Place
        ensures { result ≡ self.now.call.at }
    {
        self.at
    }

    /// The component of the frame that was opened last, or None where none is open.
    pub fn top(&self) -> Option<ComponentNo>
        ensures { result ≡ top self.now.call }
    {
        self.frames.last().copied()
    }

    /// The number of open frames. As many instances serve them.
    pub fn depth(&self) -> usize
        ensures depth { result ≡ length self.now.call.frames }
        ensures limit { result ≤ MAX_FRAMES }
    {
        self.frames.len()
    }

    /// The number of steps.
    pub fn steps(&self) -> u64
        ensures steps { result ≡ self.now.call.steps }
        ensures limit { result ≤ MAX_STEPS }
    {
        self.steps
    }

    /// The groups that this call entered, each once, and at most one for each step.
    pub fn touched(&self) -> &[Touch]
        ensures touched { result.now ≡ self.now.call.touched }
        ensures groups { AreOfOtherGroups self.now.call.touched }
        ensures limit { length self.now.call.touched ≤ self.now.call.steps }
    {
        self.touched.as_slice()
    }

    /// Whether this call entered the group. It visits each group that the call entered.
    pub fn is_touched(&self, group: GroupNo) -> bool
        ensures { result ≡ is_touched self.now.call.touched group.0 }
    {
        self.touched.iter().any(|t| t.group.0 == group.0)
    }

    /// What this call read. No value is longer than a row may be.
    pub fn marks(&self) -> &[Mark]
        ensures marks { result.now ≡ self.now.call.marks }
        ensures limit { length self.now.call.marks ≤ MAX_MARKS }
        ensures short { All IsShortMark self.now.call.marks }
    {
        self.marks.as_slice()
    }

    /// Whether this call read the row, or the table. It visits each mark.
    pub fn marked(&self, mark: &ReadMark) -> bool
        ensures { result ≡ is_marked self.now.call.marks mark.now }
    {
        is_marked(&self.marks, mark)
    }

    /// What this call writes, in the order in which the rows were first put. No row is longer than one may be.
    pub fn writes(&self) -> &[RowWrite]
        ensures writes { result.now ≡ self.now.call.writes }
        ensures limit { length self.now.call.writes ≤ MAX_WRITES }
        ensures short { All IsShortWrite self.now.call.writes }
    {
        self.writes.as_slice()
    }

    /// Whether this call writes the row. It visits each write.
    pub fn is_put(&self, id: RowId) -> bool
        ensures { result ≡ is_put self.now.call.writes id }
    {
        self.writes.iter().any(|w| w.id.is_same(id))
    }

    /// The bytes that this call writes to the row, or None where it does not write it. It visits each write.
    pub fn own_put(&self, id: RowId) -> Option<&RowBytes>
        ensures { option_map (λ bytes. bytes.now) result ≡ row_in self.now.call.writes id }
    {
        bytes_of_write(&self.writes, id)
    }

    /// Whether a put of the row would be one too many. It visits each write.
    pub fn is_full_for(&self, id: RowId) -> bool
        ensures full { result ≡ is_full_for self.now.call.writes id }
        ensures room { result ≡ false → is_put self.now.call.writes id ≡ false →
            length self.now.call.writes < MAX_WRITES }
    {
        !self.is_put(id) && self.writes.len() == MAX_WRITES
    }

    /// The bytes of the values that this call read and of the rows that it writes. It visits each of them.
    pub fn bytes(&self) -> u64
        ensures bytes { result ≡ call_bytes self.now.call.marks self.now.call.writes }
        ensures limit { result ≤ (MAX_MARKS + MAX_WRITES) * MAX_ROW_BYTES }
    {
        read_bytes(&self.marks) + written_bytes(&self.writes)
    }

    /// Opens a frame of a component, which this instance serves, and adds the touch of its group where that
    /// is new. One step. No memory.
    pub fn push_frame(&mut self, c: ComponentNo, instance: InstanceNo, touch: Option<Touch>)
        requires depth { length self.old.call.frames < MAX_FRAMES }
        requires steps { self.old.call.steps < MAX_STEPS }
        requires first { IsFirst self.old.call.touched touch }
        ensures { self.new ≡ with_frame self.old c touch }
    {
        self.frames.push_reserved(c);
        self.instances.push_reserved(instance);
        add_touch(&mut self.touched, touch);
        self.steps += 1;
    }

    /// Closes the frame that was opened last, and answers the instance that served it. One step. No memory.
    pub fn pop_frame(&mut self) -> InstanceNo
        requires open { 0 < length self.old.call.frames }
        requires steps { self.old.call.steps < MAX_STEPS }
        ensures { self.new ≡ ticket_left self.old }
    {
        self.frames.pop();
        self.steps += 1;
        self.instances.pop().unwrap()
    }

    /// Closes all open frames, of a call that ends: the instances that serve them are given back to the pool that they
    /// were taken from. No step, and no memory. It visits each of them.
    pub fn close_frames(&mut self, pool: &mut Pool)
        ensures closed { self.new ≡ ticket_closed self.old }
        ensures given { (numbers : List ℕ) × (length numbers ≡ length self.old.call.frames)
            × AreGivenBack pool.old.components numbers pool.old.instances pool.new.instances }
        ensures components { pool.new.components ≡ pool.old.components }
        ensures counted { entered_in pool.new ≡ entered_in pool.old }
        ensures plans { pool.new.plans ≡ pool.old.plans }
    {
        self.frames.clear();
        pool.give_all(&mut self.instances);
    }

    /// Adds a mark with the value that was read. Where there is no mark, the value is dropped. One step. No
    /// memory.
    pub fn add_read(&mut self, mark: Option<ReadMark>, value: Option<RowBytes>)
        requires steps { self.old.call.steps < MAX_STEPS }
        requires room { IsSome mark → length self.old.call.marks < MAX_MARKS }
        requires short { value_bytes value ≤ MAX_ROW_BYTES }
        ensures { self.new ≡ ticket_read self.old mark value }
    {
        if let Some(read) = mark {
            self.marks.push_reserved(Mark { read, value });
        }
        self.steps += 1;
    }

    /// Adds a write, in place of the earlier one of its row, or else last. One step. It visits each write. No
    /// memory.
    pub fn add_put(&mut self, write: RowWrite)
        requires steps { self.old.call.steps < MAX_STEPS }
        requires room { is_put self.old.call.writes write.id ≡ false →
            length self.old.call.writes < MAX_WRITES }
        requires short { IsShortWrite write }
        ensures { self.new ≡ ticket_kept write self.old }
    {
        add_write(&mut self.writes, write);
        self.steps += 1;
    }

    /// What this call holds, which ends. Nothing is copied, and the vectors keep the room of the ticket.
    pub fn into_parts(self) -> TicketParts
        ensures touched { result.touched ≡ self.call.touched }
        ensures marks { result.marks ≡ self.call.marks }
        ensures writes { result.writes ≡ self.call.writes }
        ensures served { length result.instances ≡ length self.call.frames }
    {
        TicketParts {
            instances: Items::from_vec(self.instances),
            touched: Items::from_vec(self.touched),
            marks: Items::from_vec(self.marks),
            writes: Items::from_vec(self.writes),
        }
    }

    /// What this call holds, which ends, moved into vectors of exactly the room that the items need. The
    /// ticket is then as at its begin, in the room that it has. It moves each item. Where memory ran out, the
    /// ticket is as it was.
    pub fn take_parts(&mut self, alloc: Global) -> Result<TicketParts, OutOfMemory>
        ensures touched { IfOk result (λ parts. parts.touched ≡ self.old.call.touched) }
        ensures marks { IfOk result (λ parts. parts.marks ≡ self.old.call.marks) }
        ensures writes { IfOk result (λ parts. parts.writes ≡ self.old.call.writes) }
        ensures served { IfOk result (λ parts.
            length parts.instances ≡ length self.old.call.frames) }
        ensures begun { OnOk result (self.new
            ≡ ticket_begun self.old.call.request self.old.call.worker self.old.call.at) }
        ensures err { OnErr result (self.new ≡ self.old) }
    {
        let mut instances = Vec::with_capacity(alloc, self.instances.len())?;
        let mut touched = Vec::with_capacity(alloc, self.touched.len())?;
        let mut marks = Vec::with_capacity(alloc, self.marks.len())?;
        let mut writes = Vec::with_capacity(alloc, self.writes.len())?;
        move_all(&mut self.instances, &mut instances);
        move_all(&mut self.touched, &mut touched);
        move_all(&mut self.marks, &mut marks);
        move_all(&mut self.writes, &mut writes);
        self.frames.clear();
        self.steps = 0;
        Ok(TicketParts {
            instances: Items::from_vec(instances),
            touched: Items::from_vec(touched),
            marks: Items::from_vec(marks),
            writes: Items::from_vec(writes),
        })
    }
}
