//! Laws of the definitions that reading is exact against. Their functions do nothing.

ghost use Rattle.std.specs.Prelude.{◌≡◌, ◌↔◌, ℕ, List, Some};
ghost use Rattle.scenario_text.specs.Cutting.{lines_of, ConsistsOf};
ghost use Rattle.scenario_text.specs.Reading.{line_of};
ghost use Rattle.scenario_text.specs.Spelling.{Spells};
ghost use Rattle.scenario_text.specs.declared.boot_line.TheConstants.{MAX_PATH};
ghost use Rattle.scenario_text.specs.declared.line.Line.{Line};
ghost use Rattle.scenario_text.specs.declared.line.TheConstants.{MAX_LINE_BYTES, MAX_HEX_BYTES, MAX_CALLER};
ghost use Rattle.scenario_text.specs.declared.seat_line.TheConstants.{MAX_SEAT};
ghost use Rattle.scenario_text.specs.declared.session_line.TheConstants.{MAX_KEY};

/// A text is read as a line exactly where it spells that line, and so the line is in its ranges. A line has 8,192 bytes
/// at most, and gives 4,000 bytes in hexadecimal at most; callers and session keys have the numbers 1 to 65,535,
/// and connections 1 to 64. A `report` of more than 16 names is read too, and refused later. It refuses brick 0, a
/// leading zero, two spellings of one line, and other limits.
pub fn spelling_law()
    ensures spells { (text : List ℕ) (line : Line) → (line_of text ≡ Some line) ↔ Spells text line }
    ensures limits { (MAX_LINE_BYTES ≡ 8192) × (MAX_HEX_BYTES ≡ 4000) × (MAX_CALLER ≡ 65535) × (MAX_KEY ≡ 65535)
        × (MAX_SEAT ≡ 64) × (MAX_PATH ≡ 16) }
{}

/// A text is cut into exactly the lines of which it consists.
pub fn lines_law()
    ensures { (text : List ℕ) (lines : List (List ℕ)) →
        (lines_of text ≡ lines) ↔ ConsistsOf text lines }
{}
