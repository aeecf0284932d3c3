//! The top call over a shelf that never fails.
ghost use Rattle.std.specs.Prelude.{◌≡◌, ◌≢◌, ◌⊎◌, ◌↔◌, ◌==◌, ℕ, [], ◌∷◌, IfSome, None, map, option_map, string_bytes, if◌then◌else◌};
ghost use Rattle.outside.specs.Files.{SaidSome, said};
ghost use Rattle.outside.specs.Faults.{Rose};
ghost use Rattle.fault_lines.specs.Statuses.{IsOneOf};
ghost use Rattle.fault_lines.specs.Lines.{Says, out_of_memory};
ghost use Rattle.script_outcome.specs.declared.fault.Place.{Place};
ghost use Rattle.script_outcome.specs.declared.fault.ScriptKind.{ScriptKind};
ghost use Rattle.play_core.specs.Words.{requested_by};
ghost use Rattle.play_core.specs.Verdict.{Verdict};
ghost use Rattle.play_core.specs.Lines.{fault_line, report, usage};
ghost use Rattle.play_core.specs.Headline.{Asks, IsLimit, WasPlayed, limit_line};

use crate::play_main;
use outside::{Gate, Out, SureShelf};
use std::alloc::Global;
use std::sync::Wait;
use std::thread::Threads;
use velocity_map::MapSet;

/// `play_main` over a shelf that never fails: it never answers 2, and 3 only where the output failed, with no more than a prefix of the
/// report. The other statuses come as there, each with its line; 5 only where a number of places was asked for.
pub fn play_never_failing<R: Threads + Wait + Sync, O: Out, G: Gate>(
    rt: &R,
    alloc: Global,
    words: &[String],
    shelf: &mut SureShelf,
    out: &mut O,
    gate: &G,
    maps: &MapSet,
) -> u8
    ensures status { IsOneOf result (0 ∷ 1 ∷ 3 ∷ 4 ∷ 5 ∷ 6 ∷ 8 ∷ []) }
    ensures words { result ≡ 1 ↔ requested_by (map string_bytes words.now) ≡ None }
    ensures write { result ≡ 3 → Rose (O.faults out.old) (O.faults out.new) }
    ensures puts { WasPlayed result → O.faults out.new ≡ O.faults out.old }
    ensures line { WasPlayed result → Asks (map string_bytes words.now) (λ request. (left : ℕ) × (blocks : ℕ) × (commands : ℕ)
        × (result ≡ (if left == 0 then 0 else 5)) × IfSome request.blocks (λ b. blocks ≡ b)
        × (O.written out.new ≡ option_map (said (report left blocks commands)) (O.written out.old))) }
    ensures stopped { result ≡ 3 → Asks (map string_bytes words.now) (λ request. (left : ℕ) × (blocks : ℕ) × (commands : ℕ)
        × IfSome request.blocks (λ b. blocks ≡ b)
        × ((O.written out.new ≡ O.written out.old) ⊎ SaidSome (report left blocks commands) (O.written out.old) (O.written out.new))) }
    ensures places { result ≡ 5 → Asks (map string_bytes words.now) (λ request. request.places ≢ None) }
    ensures usage { result ≡ 1 → Says usage (O.written out.old) (O.written out.new) (O.faults out.old) (O.faults out.new) }
    ensures fault { result ≡ 4 → (k : ℕ) × (place : Place) × (kind : ScriptKind)
        × Says (fault_line k place kind) (O.written out.old) (O.written out.new) (O.faults out.old) (O.faults out.new) }
    ensures limit { result ≡ 6 → (why : Verdict) × IsLimit why
        × Says (limit_line why) (O.written out.old) (O.written out.new) (O.faults out.old) (O.faults out.new) }
    ensures memory { result ≡ 8 → Says out_of_memory (O.written out.old) (O.written out.new) (O.faults out.old) (O.faults out.new) }
{
    play_main(rt, alloc, words, shelf, out, gate, maps)
}
