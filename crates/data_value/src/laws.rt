//! Laws of values, operators, maps and trials. Each function does nothing; its contract is the law.
ghost use Rattle.data_value.specs.Laws.{OperatorsKeepSorts, ScalarsKeepSorts, OperatorsGiveSorts, ValuesHaveSorts, TestTellsValues, TestTellsSortsInRange, TestTellsSorts, TestTellsScalars, IsEquality, EverySortHasValue, TrialsFit, ValuationsPart, ValuationsJoin, SortsHaveValuation, MapsAreReads, MapsDifferSomewhere, ReadsAreWords, PutsAreMaps, PutsReadBack, PutsLeaveOthers, PlacesHaveValues, PlacesKeepSorts, FormulasLackMaps};

use crate::{DataSort, MapValue, Op, Scalar, Value};

/// The value of an operator at values that it takes is a value, and has the sort that `sort_of` answers for it.
pub fn operators_keep_sorts()
    ensures values { OperatorsKeepSorts }
    ensures scalars { ScalarsKeepSorts }
{}

/// Operators give sorts in range at sorts in range, and so do values.
pub fn sorts_stay_in_range()
    ensures operators { OperatorsGiveSorts }
    ensures values { ValuesHaveSorts }
{}

/// The tests of the definitions are true exactly of values, of sorts in range, of equal sorts and of equal scalars.
pub fn tests_tell()
    ensures values { TestTellsValues }
    ensures in_range { TestTellsSortsInRange }
    ensures sorts { TestTellsSorts }
    ensures scalars { TestTellsScalars }
{}

/// The operator `==` is true exactly of equals: of sorts, scalars, operators, maps and values.
pub fn equals_are_equal()
    ensures sorts { IsEquality ⟦<DataSort as PartialEq>⟧.eq }
    ensures scalars { IsEquality ⟦<Scalar as PartialEq>⟧.eq }
    ensures operators { IsEquality ⟦<Op as PartialEq>⟧.eq }
    ensures maps { IsEquality ⟦<MapValue as PartialEq>⟧.eq }
    ensures values { IsEquality ⟦<Value as PartialEq>⟧.eq }
{}

/// Every sort has a value, and each of the 64 trials gives every variable one of its sort.
pub fn sorts_have_values()
    ensures every { EverySortHasValue }
    ensures trials { TrialsFit }
{}

/// A valuation of joined lists of sorts is a valuation of each part, and every list of sorts has one.
pub fn valuations_join()
    ensures parts { ValuationsPart }
    ensures whole { ValuationsJoin }
    ensures every { SortsHaveValuation }
{}

/// Two maps are equal exactly where their widths are and the word at every key. Where maps of one sort aren't equal, a
/// key is found at which they have different words.
pub fn maps_are_their_reads()
    ensures equal { MapsAreReads }
    ensures differ { MapsDifferSomewhere }
    ensures words { ReadsAreWords }
{}

/// A map with a word put at a key is a map that has that word at that key, and at every other key what was there.
pub fn puts_change_one_key()
    ensures map { PutsAreMaps }
    ensures back { PutsReadBack }
    ensures others { PutsLeaveOthers }
{}

/// At each place of a formula stands its node's value by the values before it, of the place's sort, and no node is an operator on
/// maps.
pub fn places_have_values()
    ensures values { PlacesHaveValues }
    ensures sorts { PlacesKeepSorts }
    ensures no_maps { FormulasLackMaps }
{}
