//! What code words of compiled images are in native programs, as clauses of functions that do nothing.

ghost use Rattle.std.specs.Prelude.{◌≡◌, ℕ, List, Some, true, slice_get};
ghost use Rattle.a64_instr.specs.declared.instr.Instr.{Instr};
ghost use Rattle.a64_table.specs.Decode.{decode_of};
ghost use Rattle.source_image.specs.alloc_choice.declared.choice.Choice.{Choice};
ghost use Rattle.source_image.specs.program_image.declared.imaging.Compiled.{Compiled};
ghost use Rattle.source_image.specs.Images.{IsImageOfTexts};
ghost use Rattle.native_laws.specs.Registers.{leaves_frame_register, StandsForItself};

/// No code word of an image of texts names X28.
pub fn compiled_images_leave_the_frame_register()
    ensures { (choice : Choice) (texts : List (List ℕ)) (made : Compiled) → IsImageOfTexts choice texts made
        → (n word : ℕ) (instr : Instr) → slice_get made.image.code n ≡ Some word → decode_of word ≡ Some instr → leaves_frame_register instr ≡ true }
{}

/// Each code word of an image of texts is one of the table that doesn't name X28; but for calls of services and traps its native
/// word is the same instruction with X28 for SP.
pub fn compiled_words_stand_for_themselves()
    ensures { (choice : Choice) (texts : List (List ℕ)) (made : Compiled) → IsImageOfTexts choice texts made
        → (n word : ℕ) → slice_get made.image.code n ≡ Some word → StandsForItself made.image n word }
{}
