//! Laws of the definitions: what a reader may conclude from them. Each is the contract of a function that does nothing.
ghost use Rattle.std.specs.Prelude.{◌≡◌, codes, pos, neg_ℤ, None};
ghost use Rattle.dk_results.specs.Results.{results_of};
ghost use Rattle.dk_results.specs.Grammar.{EachTextHasOneReading, ValuesAreUnique, FailuresAreNoNumbers};
ghost use Rattle.dk_results.specs.Worked.{one};

/// Each text, whatever its bytes and however long, has just one reading for a number of responses: the values with which
/// it is in the grammar of results, or a failure where it is in the grammar with no values.
pub fn each_text_has_one_reading()
    ensures { EachTextHasOneReading }
{}

/// Bytes are results with one list of values at most, however many are wanted: no label is a number.
pub fn values_are_unique()
    ensures { ValuesAreUnique }
{}

/// Bytes that begin with `fail`, in any case of its letters, are no numbers either, so that a reader that doesn't know
/// the word reads no values from them.
pub fn failures_are_no_numbers()
    ensures { FailuresAreNoNumbers }
{}

/// Worked results, for one value and, where too few are there, for two.
pub fn worked_results()
    ensures labelled { results_of (codes "1.5 obj_fn") 1 ≡ one (pos 15) (neg_ℤ (pos 1)) }
    ensures behind_a_comment { results_of (codes "# c\n3e2") 1 ≡ one (pos 3) (pos 2) }
    ensures before_a_comment { results_of (codes "1 #x") 1 ≡ one (pos 1) (pos 0) }
    ensures underscore { results_of (codes "1 _") 1 ≡ one (pos 1) (pos 0) }
    ensures failure { results_of (codes "  FAILURE at step 3") 1 ≡ None }
    ensures any_case { results_of (codes "fAiL") 1 ≡ None }
    ensures nan { results_of (codes "nan") 1 ≡ None }
    ensures infinity { results_of (codes "-inf") 1 ≡ None }
    ensures nothing { results_of (codes "") 1 ≡ None }
    ensures too_few { results_of (codes "1") 2 ≡ None }
    ensures too_many { results_of (codes "1 2") 1 ≡ None }
    ensures second_label { results_of (codes "1 a b") 1 ≡ None }
    ensures label_like_a_number { results_of (codes "1 2x") 1 ≡ None }
    ensures quoted_label { results_of (codes "1 'a'") 1 ≡ None }
{}
