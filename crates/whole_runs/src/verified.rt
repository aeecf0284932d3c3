//! A run of `play`, and of `tool verify` on the two files that it wrote.
ghost use Rattle.std.specs.Prelude.{◌≡◌, ◌<◌, ℕ, [], ◌∷◌, IfSome, Some, length, map, option_map, string_bytes};
ghost use Rattle.std.specs.Option.{MatchOption};
ghost use Rattle.outside.specs.Files.{file_of, said};
ghost use Rattle.outside.specs.Faults.{Rose};
ghost use Rattle.fault_lines.specs.Statuses.{IsOneOf};
ghost use Rattle.take_files.specs.Files.{wav};
ghost use Rattle.take_files.specs.Orders.{OrderData};
ghost use Rattle.play_core.specs.Headline.{Lists, WasPlayed};
ghost use Rattle.play_core.specs.Lines.{report};
ghost use Rattle.tool_core.specs.Orders.{order_limit};
ghost use Rattle.tool_core.specs.Lines.{same_line};
ghost use Rattle.whole_runs.specs.Verified.{Verified};

use outside::{Gate, Out, Shelf};
use play_core::play_main;
use std::alloc::Global;
use std::sync::Wait;
use std::thread::Threads;
use tool_core::tool_main;
use velocity_map::MapSet;

/// Plays what `words` ask for, as `play` does, and, where all turns were played (0 or 5), does what `check` asks for, as `tool` does, over the
/// same files. Both statuses; where `check` is `verify ORDER OUT` of the same two names, the second is never that of a difference.
pub fn play_then_verify<R: Threads + Wait + Sync, S: Shelf, O: Out, G: Gate>(
    rt: &R,
    alloc: Global,
    words: &[String],
    check: &[String],
    shelf: &mut S,
    out: &mut O,
    gate: &G,
    maps: &MapSet,
) -> (u8, Option<u8>)
    ensures ran { MatchOption result.1 (¬ (WasPlayed result.0)) (λ s. WasPlayed result.0) }
    // The files are the same, so no difference is told (7) and no file is refused (4).
    ensures same { Verified (map string_bytes words.now) (map string_bytes check.now) (S.files shelf.old) result.1
        (λ request status. IsOneOf status (0 ∷ 2 ∷ 3 ∷ 6 ∷ 8 ∷ [])) }
    // Then the report of the run was put, and `same`.
    ensures prints { Verified (map string_bytes words.now) (map string_bytes check.now) (S.files shelf.old) result.1
        (λ request status. status ≡ 0 → (left : ℕ) × (blocks : ℕ) × (commands : ℕ)
        × (O.written out.new ≡ option_map (said same_line) (option_map (said (report left blocks commands)) (O.written out.old)))) }
    // It is not said only where a read or a put failed, the order has more bytes than `tool` reads of one, or memory was wanting (8).
    // An order of `play` has less than that: a line with a voice has at most 350 bytes, so a million of them have 350,000,000; a cartridge
    // takes 4104 bytes of a script at least, so scripts of 67,108,864 bytes have at most 16,352, whose lines of at most 8,240 bytes add
    // 134,740,480; and an order may have 536,870,912. The readers' clauses don't say what a command takes of a script, so 6 stands here.
    ensures unread { Verified (map string_bytes words.now) (map string_bytes check.now) (S.files shelf.old) result.1
        (λ request status. status ≡ 2 → Rose (S.reading shelf.old) (S.reading shelf.new)) }
    ensures unsaid { Verified (map string_bytes words.now) (map string_bytes check.now) (S.files shelf.old) result.1
        (λ request status. status ≡ 3 → Rose (O.faults out.old) (O.faults out.new)) }
    ensures past_limit { Verified (map string_bytes words.now) (map string_bytes check.now) (S.files shelf.old) result.1
        (λ request status. status ≡ 6 → IfSome (file_of (S.files shelf.new) request.order) (λ text. order_limit < length text)) }
    // Both files are as `play` left them: the sound is that of the journal that the order lists.
    ensures kept { Verified (map string_bytes words.now) (map string_bytes check.now) (S.files shelf.old) result.1
        (λ request status. (order : OrderData) → Lists (S.files shelf.new) request.order order
        → file_of (S.files shelf.new) request.out ≡ Some (wav order.journal order.blocks)) }
{
    let played = play_main(rt, alloc, words, shelf, out, gate, maps);
    if played == 0 || played == 5 {
        let verified = tool_main(alloc, check, shelf, out);
        (played, Some(verified))
    } else {
        (played, None)
    }
}
