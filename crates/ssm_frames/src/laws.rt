//! Laws of the grammar of frames. Each is the contract of a function that does nothing: a caller that
//! needs the law calls the function.

ghost use Rattle.std.specs.Prelude.{◌≡◌, ◌↔◌, ◌≤◌, ℕ, List, [], ◌++◌, length, Some, None};
ghost use Rattle.ssm_frames.specs.Reading.{decode_of};
ghost use Rattle.byte_fields.specs.Spelling.{AreBytes};
ghost use Rattle.ssm_frames.specs.Spelling.{IsInRange, Spells, SpellsNoFrame, encode_of};
ghost use Rattle.ssm_frames.specs.declared.frame.Frame.{Frame};
ghost use Rattle.crash_base.specs.declared.items.TheConstants.{MAX_FRAME_BYTES};

/// Bytes are decoded to exactly the frame that they spell, and to none exactly where they spell none.
pub fn frames_are_exact()
    ensures some { (bytes : List ℕ) (frame : Frame) → AreBytes bytes
        → (decode_of bytes ≡ Some frame) ↔ Spells bytes frame }
    ensures none { (bytes : List ℕ) → AreBytes bytes
        → (decode_of bytes ≡ None) ↔ SpellsNoFrame bytes }
{}

/// The bytes of a frame are decoded to it, so no two frames have the same bytes.
pub fn frames_decode_back()
    ensures { (frame : Frame) → IsInRange frame → decode_of (encode_of frame) ≡ Some frame }
{}

/// No spelling is a proper prefix of another.
pub fn no_frame_begins_another()
    ensures { (bytes more : List ℕ) (frame other : Frame) → Spells bytes frame
        → Spells (bytes ++ more) other → more ≡ [] }
{}

/// A spelling has at most 4,161 bytes (`MAX_FRAME_BYTES`), and there is one that has just as many.
pub fn frames_are_short()
    ensures short { (bytes : List ℕ) (frame : Frame) → Spells bytes frame
        → length bytes ≤ MAX_FRAME_BYTES }
    ensures longest { (bytes : List ℕ) × (frame : Frame) × Spells bytes frame
        × (length bytes ≡ MAX_FRAME_BYTES) }
    ensures limit { MAX_FRAME_BYTES ≡ 4161 }
{}
