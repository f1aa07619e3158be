//! Laws of the command: of its words, and of its end. Each is the contract of a function that does nothing: a caller
//! that needs the law calls the function.

ghost use Rattle.std.specs.Prelude.{◌≡◌, ◌≢◌, ◌↔◌, ◌⊎◌, ◌≤◌, ◌++◌, List, [], ℕ, Option, Some, codes};
ghost use Rattle.std.specs.Fmt.{decimal};
ghost use Rattle.container_server.specs.Running.{KeeperSeen, RanOver, server_seen};
ghost use Rattle.crash_base.specs.declared.row_id.RowId.{RowId};
ghost use Rattle.outside.specs.Sink.{AppendsOrFails, appended};
ghost use Rattle.service_log.specs.Logging.{Log, WritesLine, log_of};
ghost use Rattle.service_log.specs.declared.ending.ServiceEnd.{ServiceEnd};
ghost use Rattle.service_log.specs.declared.ending.ServiceEnd.TheVariants as ends;
ghost use Rattle.serve_command.specs.LastLine.{ending};
ghost use Rattle.serve_command.specs.Serving.{HasServedShop};
ghost use Rattle.serve_command.specs.Words.{IsSaid, ServeValue, serve_words, words_saying};

/// Words spell `serve` exactly where they are the five words that say a port from 1 to 65,535, a file, a file of the
/// key, and 1 to 64 workers: so each number is written in one way, and no other words spell the command.
pub fn serve_is_spelled_by_five_words()
    ensures { (words : List (List ℕ)) (said : ServeValue) → (serve_words words ≡ Some said)
        ↔ ((words ≡ words_saying said) × IsSaid said) }
{}

/// A shop that was served tells why it ended. Either nothing was started: the status is 13, 14 or 9, and there was
/// written a reason and the line `key refused` or `start failed`, or the line `out of memory` alone. Or the line
/// `serving ..` came first, with the file, the port and the number of workers, unless there was no memory for it, and
/// then a server ran over the keeper, with no fault plans, as `run_serve` of `container_server` says. The status is
/// that of its end: 0 where no more connections came, 6 where the keeper failed, 7 at a bad row, 11 where the boots
/// were spent, and 9 where memory ran out. What it told was handed on, and at last what the sink between kept, with a
/// reason before that (`ended`). Only at status 0 was more written behind: why no more connections come. The reason
/// stands just before the line of an end, and before nothing else (`behind`, `others`). Each of these was written
/// whole, or a part of it and then a fault was counted. It refuses a shop that tells what it serves and ends without a
/// server, one that ends by another status than its end's, and a reason that is dropped behind its making or put before
/// another line. A shop that starts nothing has the lines of that; that there is a reason this does not say.
pub fn served_shops_tell_why_they_end()
    ensures ended { (words : ServeValue) (status : ℕ) (keeper : KeeperSeen) (before after : Log)
        → HasServedShop words status keeper before after
        → ((reason line : List ℕ)
        × (((status ≡ 13) × (line ≡ codes "key refused\n")) ⊎ (((status ≡ 14) × (line ≡ codes "start failed\n"))
        ⊎ ((status ≡ 9) × (line ≡ codes "out of memory\n") × (reason ≡ []))))
        × AppendsOrFails before.written after.written before.faults after.faults (reason ++ line))
        ⊎ ((serving told : Log) × (end : ServiceEnd) × (left : KeeperSeen)
        × (handed : Option (List ℕ)) × (faults : ℕ) × (kept reason closed : List ℕ)
        × ((serving ≡ before) ⊎ WritesLine (codes "serving " ++ (words.file ++ (codes " on 127.0.0.1:"
        ++ (decimal words.port ++ (codes " by " ++ (decimal words.workers ++ codes " workers\n")))))) before serving)
        × RanOver (λ plans. plans ≡ []) end (server_seen keeper serving)
        (server_seen left (log_of (appended handed kept) faults))
        × (end ≡ ends.Closed → status ≡ 0)
        × (end ≡ ends.KeeperFailed → status ≡ 6)
        × ((id : RowId) → end ≡ ends.BadRow id → status ≡ 7)
        × (end ≡ ends.BootsSpent → status ≡ 11)
        × (end ≡ ends.OutOfMemory → status ≡ 9)
        × AppendsOrFails handed told.written faults told.faults (ending reason kept)
        × (faults ≤ told.faults)
        × AppendsOrFails told.written after.written told.faults after.faults closed
        × (told.faults ≤ after.faults)
        × (status ≢ 0 → after ≡ told)) }
    ensures behind { (reason kept : List ℕ)
        → (kept ≡ codes "keeper failed\n") ⊎ ((kept ≡ codes "boots spent\n") ⊎ ((kept ≡ codes "out of memory\n")
        ⊎ ((row : List ℕ) × (kept ≡ codes "bad row " ++ row))))
        → ending reason kept ≡ reason ++ kept }
    ensures others { (reason kept : List ℕ)
        → kept ≢ codes "keeper failed\n" → kept ≢ codes "boots spent\n" → kept ≢ codes "out of memory\n"
        → ((row : List ℕ) → kept ≢ codes "bad row " ++ row)
        → ending reason kept ≡ kept }
{}
