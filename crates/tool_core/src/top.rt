//! The top call of the program `tool`.
ghost use Rattle.std.specs.Prelude.{ℕ, List, ◌≡◌, ◌≢◌, ◌⊎◌, ◌↔◌, [], ◌∷◌, IfSome, None, Some, map, string_bytes};
ghost use Rattle.outside.specs.Snapshot.{snapshot};
ghost use Rattle.fault_lines.specs.Lines.{Says};
ghost use Rattle.fault_lines.specs.Statuses.{IsOneOf};
ghost use Rattle.tool_core.specs.Endings.{Ends};
ghost use Rattle.tool_core.specs.Lines.{usage};
ghost use Rattle.tool_core.specs.Outcomes.{AnswersBy, IsComplete, IsDone, IsOutOfMemory, IsPastLimit, IsRefused, IsUnread, IsUnwritten, WasDone};
ghost use Rattle.tool_core.specs.Reads.{HoldsNothing, ReadsWhole};
ghost use Rattle.tool_core.specs.Words.{Verify, request_data, requested_by, IsInRange};

use crate::bench::bench;
use crate::failure::say_usage;
use crate::generate::generate;
use crate::librarian::{check, list, pack, pick};
use crate::replay::replay;
use crate::verify::verify;
use crate::words::{Request, read_words};
use outside::{Out, Shelf};
use std::alloc::Global;

/// Does what the words request, and answers the status: 0 done, 1 other words, 2 not read, 3 not written, 4 a file is refused,
/// 6 past a limit, 7 `verify` found a difference, 8 out of memory.
///
/// The words are `check FILE`, `list FILE`, `pick FILE SLOT OUT`, `pack OUT FILE...`, `replay ORDER OUT`, `verify ORDER WAV`,
/// `gen SEED SCRIPTS COMMANDS` or `bench SEED BLOCKS`. The files are read and judged one after the other, in the order of the words.
pub fn tool_main<S: Shelf, O: Out>(
    alloc: Global,
    words: &[String],
    shelf: &mut S,
    out: &mut O,
) -> u8
    ensures status { IsOneOf result (0 ∷ 1 ∷ 2 ∷ 3 ∷ 4 ∷ 6 ∷ 7 ∷ 8 ∷ []) }

    // 0 and 7: Every file that was read is good. The files that the command writes are whole, all others are as before, and just
    // its text was added to the output.
    ensures done { WasDone result → IfSome (requested_by (map string_bytes words.now)) (λ request. IsDone request result
        (snapshot (S.files shelf.old) (S.reading shelf.old) (S.writing shelf.old) (O.written out.old) (O.faults out.old))
        (snapshot (S.files shelf.new) (S.reading shelf.new) (S.writing shelf.new) (O.written out.new) (O.faults out.new))) }
    // 7 for `verify` alone.
    ensures different { result ≡ 7 → (order : List ℕ) × (sound : List ℕ) × (requested_by (map string_bytes words.now) ≡ Some (Verify order sound)) }

    // After 0 and 7 reads gave each byte of an order, and of the sound file of `verify`, once: it was read to its end, whatever was found before.
    ensures whole { WasDone result → IfSome (requested_by (map string_bytes words.now)) (λ request.
        ReadsWhole request (S.files shelf.old) (S.given shelf.old) (S.given shelf.new)) }
    // After 0 nothing is held back of the files that the command writes, over every shelf.
    ensures written_out { WasDone result → IfSome (requested_by (map string_bytes words.now)) (λ request. HoldsNothing request (S.held shelf.new)) }

    // 1 exactly where the words are not of the grammar.
    ensures words { result ≡ 1 ↔ requested_by (map string_bytes words.now) ≡ None }
    // 2 only where a read of a file failed and was counted, or the told files lack it, and all files before it are good; the line names it.
    ensures unread { result ≡ 2 → IfSome (requested_by (map string_bytes words.now)) (λ request. IsUnread request
        (snapshot (S.files shelf.old) (S.reading shelf.old) (S.writing shelf.old) (O.written out.old) (O.faults out.old))
        (snapshot (S.files shelf.new) (S.reading shelf.new) (S.writing shelf.new) (O.written out.new) (O.faults out.new))) }
    // 3 only where every file that was read is good, and a write or the put of the text failed and was counted. What is written
    // stands as far as it came.
    ensures unwritten { result ≡ 3 → IfSome (requested_by (map string_bytes words.now)) (λ request. IsUnwritten request
        (snapshot (S.files shelf.old) (S.reading shelf.old) (S.writing shelf.old) (O.written out.old) (O.faults out.old))
        (snapshot (S.files shelf.new) (S.reading shelf.new) (S.writing shelf.new) (O.written out.new) (O.faults out.new))) }
    // 4 and 6 only where a file is refused, or past a limit, and all files before it are good.
    ensures refused { result ≡ 4 → IfSome (requested_by (map string_bytes words.now)) (λ request. IsRefused request
        (snapshot (S.files shelf.old) (S.reading shelf.old) (S.writing shelf.old) (O.written out.old) (O.faults out.old))
        (snapshot (S.files shelf.new) (S.reading shelf.new) (S.writing shelf.new) (O.written out.new) (O.faults out.new))) }
    ensures past_limit { result ≡ 6 → IfSome (requested_by (map string_bytes words.now)) (λ request. IsPastLimit request
        (snapshot (S.files shelf.old) (S.reading shelf.old) (S.writing shelf.old) (O.written out.old) (O.faults out.old))
        (snapshot (S.files shelf.new) (S.reading shelf.new) (S.writing shelf.new) (O.written out.new) (O.faults out.new))) }
    // The first file that isn't good decides, where no read fails.
    ensures judged { IfSome (requested_by (map string_bytes words.now)) (λ request. AnswersBy request result
        (snapshot (S.files shelf.old) (S.reading shelf.old) (S.writing shelf.old) (O.written out.old) (O.faults out.old))
        (snapshot (S.files shelf.new) (S.reading shelf.new) (S.writing shelf.new) (O.written out.new) (O.faults out.new))) }

    // No counted fault is passed over, and after all other statuses no file has changed.
    ensures reads { result ≢ 2 → S.reading shelf.new ≡ S.reading shelf.old }
    ensures writes { result ≢ 3 → S.writing shelf.new ≡ S.writing shelf.old }
    ensures puts { WasDone result → O.faults out.new ≡ O.faults out.old }
    ensures untouched { ¬ (WasDone result) → result ≢ 3 → S.files shelf.new ≡ S.files shelf.old }
    ensures usage { result ≡ 1 → Says usage (O.written out.old) (O.written out.new) (O.faults out.old) (O.faults out.new) }
    ensures memory { result ≡ 8 → IsOutOfMemory
        (snapshot (S.files shelf.old) (S.reading shelf.old) (S.writing shelf.old) (O.written out.old) (O.faults out.old))
        (snapshot (S.files shelf.new) (S.reading shelf.new) (S.writing shelf.new) (O.written out.new) (O.faults out.new)) }

    // Where all is right and nothing fails, it is done, unless memory runs out.
    ensures complete { IfSome (requested_by (map string_bytes words.now)) (λ request. IsComplete request result
        (snapshot (S.files shelf.old) (S.reading shelf.old) (S.writing shelf.old) (O.written out.old) (O.faults out.old))
        (snapshot (S.files shelf.new) (S.reading shelf.new) (S.writing shelf.new) (O.written out.new) (O.faults out.new))) }
{
    match read_words(words) {
        Some(request) => run(alloc, request, shelf, out),
        None => {
            say_usage(out);
            1
        }
    }
}

/// Runs a command.
fn run<S: Shelf, O: Out>(alloc: Global, request: Request<'_>, shelf: &mut S, out: &mut O) -> u8
    requires { IsInRange request }
    ensures ends { Ends (request_data request.entry) result
        (snapshot (S.files shelf.old) (S.reading shelf.old) (S.writing shelf.old) (O.written out.old) (O.faults out.old))
        (snapshot (S.files shelf.new) (S.reading shelf.new) (S.writing shelf.new) (O.written out.new) (O.faults out.new)) }
    ensures whole { WasDone result → ReadsWhole (request_data request.entry) (S.files shelf.old) (S.given shelf.old) (S.given shelf.new) }
    ensures written_out { WasDone result → HoldsNothing (request_data request.entry) (S.held shelf.new) }
{
    match request {
        Request::Check { file } => check(alloc, file, shelf, out),
        Request::List { file } => list(alloc, file, shelf, out),
        Request::Pick {
            file,
            slot,
            out: name,
        } => pick(alloc, file, slot, name, shelf, out),
        Request::Pack { out: name, files } => pack(alloc, name, files, shelf, out),
        Request::Replay { order, out: name } => replay(alloc, order, name, shelf, out),
        Request::Verify { order, sound } => verify(alloc, order, sound, shelf, out),
        Request::Gen {
            seed,
            scripts,
            commands,
        } => generate(alloc, seed, scripts, commands, shelf, out),
        Request::Bench { seed, blocks } => bench(alloc, seed, blocks, shelf, out),
    }
}
