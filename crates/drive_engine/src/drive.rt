//! A scenario, from its source to its sink.

ghost use Rattle.std.specs.Prelude.{◌≡◌, ◌≤◌};
ghost use Rattle.outside.specs.Faults.{Rose};
ghost use Rattle.scenario_engine.specs.KeeperCalls.{seen};
ghost use Rattle.drive_engine.specs.Command.{Runs};
ghost use Rattle.drive_engine.specs.Exchange.{exchange};
ghost use Rattle.drive_engine.specs.Play.{first_play};

use crate::ending::Ending;
use crate::laws::scenarios_stand;
use crate::play::Play;
use crate::words::Command;
use outside::{Keeper, Sink, Source};
use std::alloc::Global;

/// The most bytes of a scenario.
pub const MAX_SCENARIO_BYTES: usize = 4_294_967_295;

/// The most bytes that are read at once.
const PIECE_BYTES: usize = 8192;

/// Reads a scenario piece by piece to its end, and does each line as soon as it was read to its end.
fn play_on<S: Source, T: Sink, K: Keeper + Drop>(
    alloc: Global,
    play: &mut Play<K>,
    input: &mut S,
    out: &mut T,
) -> Ending
    requires { play.old ≡ first_play play.old.keeper }
    ensures runs { Runs Command.Drive result
        (exchange (S.left input.old) (S.left input.new) (T.written out.old) (T.written out.new)
        play.old.keeper play.new.keeper) }
    ensures read_failed { result ≡ Ending.ReadFailed
        → Rose (S.faults input.old) (S.faults input.new) }
    ensures write_failed { result ≡ Ending.WriteFailed
        → Rose (T.faults out.old) (T.faults out.new) }
    ensures keeper_failed { result ≡ Ending.KeeperFailed
        → Rose play.old.keeper.faults play.new.keeper.faults }
    ensures keeper_count { play.old.keeper.faults ≤ play.new.keeper.faults }
{
    scenarios_stand();
    let mut room = [0u8; PIECE_BYTES];
    let mut more = MAX_SCENARIO_BYTES;
    'pieces: loop {
        match input.read(&mut room) {
            Err(_) => return Ending::ReadFailed,
            Ok(0) => return play.finish(alloc, out),
            Ok(n) => {
                match play.feed(alloc, &room[..n.min(more)], out) {
                    Ok(()) => {}
                    Err(ending) => return ending,
                }
                if n > more {
                    return Ending::ScenarioTooLong;
                }
                more -= n;
            }
        }
    }
}

/// Reads a scenario to its end, does its lines over the keeper, and writes what they write. The keeper is handed back.
pub fn drive<S: Source, T: Sink, K: Keeper + Drop>(
    alloc: Global,
    input: &mut S,
    out: &mut T,
    keeper: K,
) -> (Ending, K)
    ensures runs { Runs Command.Drive result.0
        (exchange (S.left input.old) (S.left input.new) (T.written out.old) (T.written out.new)
        (seen (K.told keeper) (K.faults keeper)) (seen (K.told result.1) (K.faults result.1))) }
    ensures read_failed { result.0 ≡ Ending.ReadFailed
        → Rose (S.faults input.old) (S.faults input.new) }
    ensures write_failed { result.0 ≡ Ending.WriteFailed
        → Rose (T.faults out.old) (T.faults out.new) }
    ensures keeper_failed { result.0 ≡ Ending.KeeperFailed
        → Rose (K.faults keeper) (K.faults result.1) }
    ensures keeper_count { K.faults keeper ≤ K.faults result.1 }
{
    scenarios_stand();
    match Play::new(alloc, keeper) {
        Ok(mut play) => {
            let ending = play_on(alloc, &mut play, input, out);
            (ending, play.into_keeper())
        }
        Err(keeper) => (Ending::OutOfMemory, keeper),
    }
}
