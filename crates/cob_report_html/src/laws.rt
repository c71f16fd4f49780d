//! How what is written of a text is read.

ghost use Rattle.std.specs.Prelude.{◌≡◌, ℕ, List};
ghost use Rattle.cob_report_html.specs.Escapes.{ReadsAs, written_text};

/// What is written of a text is read as the text.
pub fn escapes_read_back()
    ensures { (text : List ℕ) → ReadsAs (written_text text) text }
{}

/// What is written is read in one way.
pub fn reading_is_one()
    ensures { (shown text other : List ℕ) → ReadsAs shown text → ReadsAs shown other
        → text ≡ other }
{}
