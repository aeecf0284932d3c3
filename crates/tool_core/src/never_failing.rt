//! The top call over files that never fail.

ghost use Rattle.std.specs.Prelude.{ℕ, List, ◌≡◌, ◌≢◌, ◌↔◌, [], ◌∷◌, IfSome, None, Some, map, string_bytes};
ghost use Rattle.outside.specs.Faults.{Rose};
ghost use Rattle.outside.specs.Snapshot.{snapshot};
ghost use Rattle.fault_lines.specs.Lines.{Says};
ghost use Rattle.fault_lines.specs.Statuses.{IsOneOf};
ghost use Rattle.tool_core.specs.Effects.{Effect, HasEffect};
ghost use Rattle.tool_core.specs.Lines.{usage};
ghost use Rattle.tool_core.specs.Outcomes.{FailsReport, IsDone, IsOutOfMemory, IsPastLimit, IsRefused, IsUnwritten, WasDone};
ghost use Rattle.tool_core.specs.Words.{Verify, requested_by};

use crate::tool_main;
use outside::{Out, SureShelf};
use std::alloc::Global;

/// `tool_main` over a shelf that never fails, and tells nothing of its files: it never answers 2, and 3 only where the output failed,
/// with no more than a prefix of the report.
pub fn tool_never_failing<O: Out>(
    alloc: Global,
    words: &[String],
    shelf: &mut SureShelf,
    out: &mut O,
) -> u8
    ensures status { IsOneOf result (0 ∷ 1 ∷ 3 ∷ 4 ∷ 6 ∷ 7 ∷ 8 ∷ []) }
    // Where no put fails either, 3 is left out too.
    ensures sure { ¬ (Rose (O.faults out.old) (O.faults out.new)) → IsOneOf result (0 ∷ 1 ∷ 4 ∷ 6 ∷ 7 ∷ 8 ∷ []) }
    // What is printed that rests on no file's bytes: `ok`, and the lines of the generator's commands.
    ensures done { WasDone result → IfSome (requested_by (map string_bytes words.now)) (λ request. IsDone request result
        (snapshot None 0 0 (O.written out.old) (O.faults out.old)) (snapshot None 0 0 (O.written out.new) (O.faults out.new))) }
    ensures different { result ≡ 7 → (order : List ℕ) × (sound : List ℕ)
        × (requested_by (map string_bytes words.now) ≡ Some (Verify order sound)) }
    ensures words { result ≡ 1 ↔ requested_by (map string_bytes words.now) ≡ None }
    ensures usage { result ≡ 1 → Says usage (O.written out.old) (O.written out.new) (O.faults out.old) (O.faults out.new) }
    ensures read { result ≢ 2 }
    ensures write { result ≡ 3 → Rose (O.faults out.old) (O.faults out.new) }
    ensures puts { WasDone result → O.faults out.new ≡ O.faults out.old }
    ensures unwritten { result ≡ 3 → IfSome (requested_by (map string_bytes words.now)) (λ request. IsUnwritten request
        (snapshot None 0 0 (O.written out.old) (O.faults out.old)) (snapshot None 0 0 (O.written out.new) (O.faults out.new))) }
    // No file is at fault: with 3 the put of the report failed, and no more than a prefix of it was put.
    ensures report { result ≡ 3 → IfSome (requested_by (map string_bytes words.now)) (λ request. (effect : Effect)
        × HasEffect request None effect × FailsReport effect
        (snapshot None 0 0 (O.written out.old) (O.faults out.old)) (snapshot None 0 0 (O.written out.new) (O.faults out.new))) }
    ensures refused { result ≡ 4 → IfSome (requested_by (map string_bytes words.now)) (λ request. IsRefused request
        (snapshot None 0 0 (O.written out.old) (O.faults out.old)) (snapshot None 0 0 (O.written out.new) (O.faults out.new))) }
    ensures past_limit { result ≡ 6 → IfSome (requested_by (map string_bytes words.now)) (λ request. IsPastLimit request
        (snapshot None 0 0 (O.written out.old) (O.faults out.old)) (snapshot None 0 0 (O.written out.new) (O.faults out.new))) }
    ensures memory { result ≡ 8 → IsOutOfMemory
        (snapshot None 0 0 (O.written out.old) (O.faults out.old)) (snapshot None 0 0 (O.written out.new) (O.faults out.new)) }
{
    tool_main(alloc, words, shelf, out)
}
