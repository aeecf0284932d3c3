//! The top call of the program `play`.
ghost use Rattle.std.specs.Prelude.{◌≡◌, ◌≢◌, ◌⊎◌, ◌↔◌, ◌<◌, ◌≤◌, ◌==◌, ℕ, List, [], ◌∷◌, IfSome, IsSomeAnd, None, Some, length, map, option_map, slice_index_or, string_bytes, if◌then◌else◌};
ghost use Rattle.outside.specs.Files.{file_of, said};
ghost use Rattle.outside.specs.Faults.{Rose};
ghost use Rattle.fault_lines.specs.Lines.{Says, cannot_read, out_of_memory};
ghost use Rattle.fault_lines.specs.Statuses.{IsOneOf};
ghost use Rattle.command_set.specs.Entries.{LoggedData};
ghost use Rattle.take_files.specs.Files.{wav};
ghost use Rattle.take_files.specs.Orders.{IsOrdered, OrderData};
ghost use Rattle.turns.specs.Timed.{ArePlayed, IsTimed};
ghost use Rattle.turns.specs.Turns.{plan_of, many_commands};
ghost use Rattle.turns.specs.Written.{HoldsNothing};
ghost use Rattle.script_outcome.specs.declared.fault.Place.{Place};
ghost use Rattle.script_outcome.specs.declared.fault.ScriptKind.{ScriptKind};
ghost use Rattle.script_plan.specs.Plan.{PlannedData};
ghost use Rattle.play_core.specs.Words.{requested_by};
ghost use Rattle.play_core.specs.Verdict.{Verdict, Faulty, IsPlayed, blocks_of_run, places_of_run, verdict};
ghost use Rattle.play_core.specs.Refused.{IsUnread};
ghost use Rattle.play_core.specs.Lines.{fault_line, report, usage};
ghost use Rattle.play_core.specs.Files.{AreBegun};
ghost use Rattle.outside.specs.Snapshot.{snapshot};
ghost use Rattle.play_core.specs.Run.{HavePlans, NamesFailed, SaysOfStop, report_of, sound_of, order_of};
ghost use Rattle.play_core.specs.Headline.{Answers, ArePrompt, Asks, HasAll, IsComplete, IsLimit, LacksSome, Lists, Played, PlayedAs, Told, WasPlayed, journal_alone, limit_line};

use crate::lines::say_usage;
use crate::play::play;
use crate::words::read_words;
use outside::{Gate, Out, Shelf};
use std::alloc::Global;
use std::sync::Wait;
use std::thread::Threads;
use velocity_map::MapSet;

/// Does what the words `OUT ORDER BLOCKS PLACES SCRIPT...` ask for: it plays the scripts beside each other, each on an end of its own of one
/// line, renders block by block what comes out of the line, writes the sound to OUT and the order in which the commands came to ORDER, and
/// puts a line. The answer is the status: 0 all commands were played, 1 other words, 2 not read, 3 not written, 4 a fault of a script, 5 some
/// commands were left when the blocks ended, 6 past a limit, 8 out of memory. `gate` is called before and after each script's and the
/// renderer's part of a turn. It may wait; its promises hold if it returns.
pub fn play_main<R: Threads + Wait + Sync, S: Shelf, O: Out, G: Gate>(
    rt: &R,
    alloc: Global,
    words: &[String],
    shelf: &mut S,
    out: &mut O,
    gate: &G,
    maps: &MapSet,
) -> u8
    ensures status { IsOneOf result (0 ∷ 1 ∷ 2 ∷ 3 ∷ 4 ∷ 5 ∷ 6 ∷ 8 ∷ []) }

    // The headline: 0 and 5 over told files. ORDER is the order of one journal and of no other, with as many scripts as were named. All that
    // follows speaks of this journal.
    ensures order { Played (map string_bytes words.now) result (S.files shelf.old)
        (λ request plans. (order : OrderData) × Lists (S.files shelf.new) request.order order × (order.scripts ≡ length request.scripts)
        × ((other : OrderData) → Lists (S.files shelf.new) request.order other → other ≡ order)) }
    // It has as many blocks as were asked for, or 201 more than the greatest block that a command is due at.
    ensures blocks { PlayedAs (map string_bytes words.now) result (S.files shelf.old) (S.files shelf.new)
        (λ request plans order. order.blocks ≡ blocks_of_run request.blocks plans) }
    // OUT is, block by block and bit for bit, what one thread renders after the commands that the journal lists up to that block.
    ensures sound { PlayedAs (map string_bytes words.now) result (S.files shelf.old) (S.files shelf.new)
        (λ request plans order. file_of (S.files shelf.new) request.out ≡ Some (wav order.journal order.blocks)) }
    // 0: the journal has each command of each script's plan exactly once, in order; and no others.
    ensures all { result ≡ 0 → PlayedAs (map string_bytes words.now) result (S.files shelf.old) (S.files shelf.new)
        (λ request plans order. HasAll order.journal plans) }
    // 0 and 5: of each script it has the first commands; with 5 not all of some script's.
    ensures played { PlayedAs (map string_bytes words.now) result (S.files shelf.old) (S.files shelf.new)
        (λ request plans order. ArePlayed order.journal plans) }
    ensures left { result ≡ 5 → PlayedAs (map string_bytes words.now) result (S.files shelf.old) (S.files shelf.new)
        (λ request plans order. LacksSome order.journal plans) }
    // Each is logged at its due block or above; above it, or not at all, only where the line has few places.
    ensures timed { PlayedAs (map string_bytes words.now) result (S.files shelf.old) (S.files shelf.new)
        (λ request plans order. IsTimed order.journal plans (places_of_run request.places plans)) }
    // Where the line has a place for each command, as it has with PLACES `-`, each is logged at its due block.
    ensures prompt { PlayedAs (map string_bytes words.now) result (S.files shelf.old) (S.files shelf.new)
        (λ request plans order. many_commands plans ≤ places_of_run request.places plans → ArePrompt order.journal plans) }
    // One script alone then has the journal of its plan: its bytes and BLOCKS decide every byte of both files.
    ensures alone { PlayedAs (map string_bytes words.now) result (S.files shelf.old) (S.files shelf.new)
        (λ request plans order. many_commands plans ≤ places_of_run request.places plans → length plans ≡ 1
        → order.journal ≡ journal_alone 0 (plan_of plans 0)) }
    // All other files are as before, and just the report was added.
    ensures others { Played (map string_bytes words.now) result (S.files shelf.old) (λ request plans.
        (other : List ℕ) → other ≢ request.out → other ≢ request.order
        → file_of (S.files shelf.new) other ≡ file_of (S.files shelf.old) other) }
    ensures report { PlayedAs (map string_bytes words.now) result (S.files shelf.old) (S.files shelf.new)
        (λ request plans order. O.written out.new ≡ option_map (said (report_of request plans order.journal)) (O.written out.old)) }
    // The report stands on every output that tells, whether or not the files are told.
    ensures line { WasPlayed result → Asks (map string_bytes words.now) (λ request. (left : ℕ) × (blocks : ℕ) × (commands : ℕ)
        × (result ≡ (if left == 0 then 0 else 5)) × IfSome request.blocks (λ b. blocks ≡ b)
        × (O.written out.new ≡ option_map (said (report left blocks commands)) (O.written out.old))) }
    // Every script was there, within the limits, and had a plan; so it was after 3.
    ensures right { WasPlayed result ⊎ (result ≡ 3)
        → Told (map string_bytes words.now) (S.files shelf.old) (λ request told. IsPlayed (verdict request told)) }

    // 1 exactly where the words are not of the grammar.
    ensures words { result ≡ 1 ↔ requested_by (map string_bytes words.now) ≡ None }
    // 2 only where a read of a script failed and was counted, or the told files lack it, and all scripts before it are good; the line names it.
    ensures unread { result ≡ 2 → Asks (map string_bytes words.now) (λ request. (k : ℕ)
        × IsUnread k request.blocks (S.files shelf.old) request.scripts (S.reading shelf.old) (S.reading shelf.new)
        × Says (cannot_read (slice_index_or request.scripts k [])) (O.written out.old) (O.written out.new) (O.faults out.old) (O.faults out.new)) }
    // 3 only where a write or a put failed and was counted.
    ensures write { result ≡ 3 → Rose (S.writing shelf.old) (S.writing shelf.new) ⊎ Rose (O.faults out.old) (O.faults out.new) }
    // Then there is one journal, such as an order lists, of the first commands of each script's plan. Each of both files is as before or a
    // prefix of what this journal gives, and all others are as before. The line names one of the two; or no write failed, both are whole, and
    // no more than a prefix of the journal's report was put.
    ensures stopped { result ≡ 3 → Asks (map string_bytes words.now) (λ request. (plans : List (List PlannedData)) × (journal : List LoggedData)
        × HavePlans request (S.files shelf.old) plans
        × IsOrdered journal (blocks_of_run request.blocks plans) (length plans) × ArePlayed journal plans
        × AreBegun (S.files shelf.old) (S.files shelf.new)
        request.out (sound_of request plans journal) request.order (order_of request plans journal)
        × SaysOfStop request plans journal
        (snapshot (S.files shelf.old) (S.reading shelf.old) (S.writing shelf.old) (O.written out.old) (O.faults out.old))
        (snapshot (S.files shelf.new) (S.reading shelf.new) (S.writing shelf.new) (O.written out.new) (O.faults out.new))) }
    // The file that is named is the one whose write failed first, on a shelf that tells the names; where no write failed, the output did.
    ensures names { result ≡ 3 → Asks (map string_bytes words.now) (λ request.
        NamesFailed request.out request.order (S.failed shelf.old) (S.failed shelf.new)
        (O.written out.old) (O.written out.new) (O.faults out.old) (O.faults out.new)) }
    // 4 and 6 only where the told files say so, by the line that was put.
    ensures fault { result ≡ 4 → (k : ℕ) × (place : Place) × (kind : ScriptKind)
        × Told (map string_bytes words.now) (S.files shelf.old) (λ request told. verdict request told ≡ Faulty k place kind)
        × Says (fault_line k place kind) (O.written out.old) (O.written out.new) (O.faults out.old) (O.faults out.new) }
    ensures limit { result ≡ 6 → (why : Verdict) × IsLimit why
        × Told (map string_bytes words.now) (S.files shelf.old) (λ request told. verdict request told ≡ why)
        × Says (limit_line why) (O.written out.old) (O.written out.new) (O.faults out.old) (O.faults out.new) }
    // What the told files say decides, where no read fails.
    ensures judged { Told (map string_bytes words.now) (S.files shelf.old) (λ request told.
        ¬ (Rose (S.reading shelf.old) (S.reading shelf.new)) → Answers (verdict request told) result) }
    // 5 only where a number of places was asked for that is below the number of commands.
    ensures places { result ≡ 5 → Asks (map string_bytes words.now) (λ request. (plans : List (List PlannedData))
        × HavePlans request (S.files shelf.old) plans × IsSomeAnd request.places (λ p. p < many_commands plans)) }

    // What the shelf holds back of both files was written out.
    ensures written_out { WasPlayed result → Asks (map string_bytes words.now) (λ request.
        HoldsNothing (S.held shelf.new) request.out request.order) }

    // No counted fault is passed over, and after all other statuses no file has changed.
    ensures reads { result ≢ 2 → S.reading shelf.new ≡ S.reading shelf.old }
    ensures writes { result ≢ 3 → S.writing shelf.new ≡ S.writing shelf.old }
    ensures puts { WasPlayed result → O.faults out.new ≡ O.faults out.old }
    ensures untouched { ¬ (WasPlayed result) → result ≢ 3 → S.files shelf.new ≡ S.files shelf.old }
    ensures usage { result ≡ 1 → Says usage (O.written out.old) (O.written out.new) (O.faults out.old) (O.faults out.new) }
    ensures memory { result ≡ 8 → Says out_of_memory (O.written out.old) (O.written out.new) (O.faults out.old) (O.faults out.new) }

    // Where all is right and nothing fails, all commands are played where the line has places for them, unless memory runs out.
    ensures complete { ¬ (Rose (S.reading shelf.old) (S.reading shelf.new)) → ¬ (Rose (S.writing shelf.old) (S.writing shelf.new))
        → ¬ (Rose (O.faults out.old) (O.faults out.new))
        → Told (map string_bytes words.now) (S.files shelf.old) (λ request told. IsComplete request (verdict request told) result) }
{
    match read_words(words) {
        Some(request) => play(rt, alloc, request, shelf, out, gate, maps),
        None => {
            say_usage(out);
            1
        }
    }
}
