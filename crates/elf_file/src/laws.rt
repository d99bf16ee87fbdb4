//! How the words of a program hang together, as clauses of functions that do nothing.

ghost use Rattle.std.specs.Prelude.{◌≡◌, ℕ, ◌+◌, ◌<◌, ◌≤◌, Some, None, drop, length, slice_get};
ghost use Rattle.image_form.specs.declared.image.Image.{Image};
ghost use Rattle.image_form.specs.Form.{IsInForm};
ghost use Rattle.a64_instr.specs.declared.instr.Instr.{Instr};
ghost use Rattle.a64_instr.specs.declared.instr.Instr.TheVariants.{Movz, Svc, Brk};
ghost use Rattle.a64_table.specs.Decode.{decode_of};
ghost use Rattle.elf_file.specs.Native.{on_frame, native_size, links, runtime_place, native_words};
ghost use Rattle.elf_file.specs.Runtime.{runtime, pieces, runtime_length, service_entry, trap_place};
ghost use Rattle.elf_file.specs.Placed.{instr_at, AreInTable, PiecesAreInTable, IsOrdinary, Goes, Calls, CallsByStub};

/// Each code word of the table is native with X28 for SP, but for calls of services and traps; a word that isn't in the
/// table stays.
#[tactic(auto, using(crate::proofs::Hanging::stays, crate::proofs::Hanging::stays_unknown))]
pub fn words_stay_but_for_the_frame()
    ensures ordinary { (image : Image) (place : ℕ) (instr : Instr) → instr_at image.code place ≡ Some instr → IsOrdinary instr
        → instr_at (native_words image) place ≡ Some (on_frame instr) }
    ensures unknown { (image : Image) (place word : ℕ) → slice_get image.code place ≡ Some word → decode_of word ≡ None
        → slice_get (native_words image) place ≡ Some word }
{}

/// Each call of the services 1 to 4 goes to a stub, which calls the words of its service and goes to the word behind the call.
#[tactic(auto, using(crate::proofs::Hanging::calls_by_stub))]
pub fn services_are_called_by_stubs()
    ensures { (image : Image) → IsInForm image → (place service : ℕ) → instr_at image.code place ≡ Some (Svc service) → 1 ≤ service → service ≤ 4
        → CallsByStub image place service }
{}

/// Service 0 goes to the runtime's end.
#[tactic(auto, using(crate::proofs::Hanging::ends))]
pub fn the_end_goes_to_the_runtime()
    ensures { (image : Image) → IsInForm image → (place : ℕ) → instr_at image.code place ≡ Some (Svc 0)
        → Goes (native_words image) place (runtime_place (native_size image.code) + service_entry 0) }
{}

/// Each trap of a kind below 16 calls the runtime's words of its kind.
#[tactic(auto, using(crate::proofs::Hanging::traps))]
pub fn traps_call_their_words()
    ensures { (image : Image) → IsInForm image → (place kind : ℕ) → instr_at image.code place ≡ Some (Brk kind) → kind < 16
        → Calls (native_words image) place (runtime_place (native_size image.code) + trap_place kind) }
{}

/// The runtime is what stands at its place; the words of each kind of trap begin with that kind's number.
#[tactic(auto, using(crate::proofs::Hanging::runtime_stands, crate::proofs::TrapWords::kinds, crate::proofs::TrapWords::length_runtime))]
pub fn the_runtime_stands_at_its_place()
    ensures there { (image : Image) → drop (runtime_place (native_size image.code)) (native_words image) ≡ runtime }
    ensures length { length runtime ≡ runtime_length }
    ensures kinds { (kind : ℕ) → kind < 16 → instr_at runtime (trap_place kind) ≡ Some (Movz 10 kind 0) }
{}

/// The links and the runtime but for its texts are of words of the table, as native words are where the image's words are, and stubs.
#[tactic(auto, using(crate::proofs::Tabled::links_in_table, crate::proofs::Tabled::pieces_in_table))]
pub fn words_are_of_the_table()
    ensures links { (image : Image) → IsInForm image → AreInTable (links (native_size image.code) image) }
    ensures runtime { PiecesAreInTable pieces }
{}
