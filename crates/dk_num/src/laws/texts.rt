// That what a number's text is read as is what its grammar says, and that the texts of a decimal are read back.
ghost use Rattle.std.specs.Prelude.{◌≡◌, ℕ, List, Result, Ok};
ghost use Rattle.dk_num.specs.Decimal.{Decimal, IsCanonical};
ghost use Rattle.dk_num.specs.Numbers.{ReadsAs, read_of};
ghost use Rattle.dk_num.specs.Texts.{table_text, sci_text};
ghost use Rattle.dk_num.specs.declared.read.NumFault.{NumFault};

/// What `Dec::read` answers is what the grammar of a number's text says, and nothing else is.
pub fn each_text_reads()
    ensures means { (text : List ℕ) → ReadsAs text (read_of text) }
    ensures means_nothing_else { (text : List ℕ) (result : Result Decimal NumFault) → ReadsAs text result → result ≡ read_of text }
{}

/// Both texts of a decimal are read as that decimal.
pub fn each_decimal_reads_back()
    ensures reads_table_text { (d : Decimal) → IsCanonical d → read_of (table_text d) ≡ Ok d }
    ensures reads_sci_text { (d : Decimal) → IsCanonical d → read_of (sci_text d) ≡ Ok d }
{}
