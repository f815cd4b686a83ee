//! Laws of the definitions. Each is the contract of a function that does nothing.
ghost use Rattle.dk_types.specs.Laws.{EachStudyComesOnce, EachStudyEndsOnce, RowsComeInOrder, RowsKeepTheLimit, RowsAreThePoints};
ghost use Rattle.dk_types.specs.Rules.{EachRuleAnswers};
ghost use Rattle.dk_types.specs.Sheets.{PlacesStay, SamePointSamePlace, NextHasPlace};
ghost use Rattle.dk_types.specs.EntryLaws.{OthersKeepTheirAnswer, AnsweredStays, NextIsTheNextAttempt, CardsSayTheSame, EachCardsHaveEntries, DecidedStays, RowsStay, DecidedAlike, DecidedAsAlone};

/// For each study, and whatever the attempts gave, there is just one list of rows and one verdict.
pub fn each_study_comes_once()
    ensures { EachStudyComesOnce }
{}

/// For each study and each child there is just one list of rows and one ending.
pub fn each_study_ends_once()
    ensures { EachStudyEndsOnce }
{}

/// Each row has the point that comes next behind the rows before it, and what the attempts of this point come to. A study
/// that finished has no next point; that of one that was aborted has no values, and that of another waits for an attempt.
pub fn rows_come_in_order()
    ensures { RowsComeInOrder }
{}

/// No accepted study has more rows than its limit, which is that of a compass search's `max_function_evaluations`.
pub fn rows_keep_the_limit()
    ensures { RowsKeepTheLimit }
{}

/// In a study whose points are known from the beginning, row i has point i and what the attempts of this point come to. A
/// study that finished has a row for each of its points; one that was aborted, or waits for an attempt, has none from the
/// first point on that has no values.
pub fn rows_are_the_points()
    ensures { RowsAreThePoints }
{}

/// Under `abort` and `retry` a point is dead after so many attempts exactly where these failed and are all that the rule
/// allows, one and its retries; under `recover` never. It has values exactly where an attempt that is allowed gave them
/// and all before it failed, or, under `recover`, where the first attempt failed and they are the rule's own. An attempt
/// is due exactly where it is allowed, wasn't made, and all before it failed.
pub fn each_rule_answers()
    ensures { EachRuleAnswers }
{}

/// An attempt of one point changes no other point's answer.
pub fn others_keep_their_answer()
    ensures { OthersKeepTheirAnswer }
{}

/// Under each rule an answered point stays answered, and so, whatever attempts are added.
pub fn answered_stays()
    ensures { AnsweredStays }
{}

/// What is to be made next of a point under any rule is its next attempt.
pub fn next_is_the_next_attempt()
    ensures { NextIsTheNextAttempt }
{}

/// Cards that sum up entries say of each attempt what these say.
pub fn cards_say_the_same()
    ensures { CardsSayTheSame }
{}

/// Cards of distinct points sum up a well-formed list of entries.
pub fn each_cards_have_entries()
    ensures { EachCardsHaveEntries }
{}

/// Once a study is decided, its rows and its ending are kept, whatever attempts are added.
pub fn decided_stays()
    ensures { DecidedStays }
{}

/// Its rows are kept in any case.
pub fn rows_stay()
    ensures { RowsStay }
{}

/// Attempts that agree decide a study alike.
pub fn decided_alike()
    ensures { DecidedAlike }
{}

/// Attempts that gave what a child gives decide a study as the child does.
pub fn decided_as_alone()
    ensures { DecidedAsAlone }
{}

/// A point's place in the sheet stays, whatever attempts are added.
pub fn places_stay()
    ensures { PlacesStay }
{}

/// Points that are one have one place.
pub fn same_point_same_place()
    ensures { SamePointSamePlace }
{}

/// A point that waits for an attempt behind the rows so far has the next row's number as its place.
pub fn next_has_place()
    ensures { NextHasPlace }
{}
