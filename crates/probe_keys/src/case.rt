//! Cases.
use sqlite_items::Items;

/// Two nodes of one map sort.
#[derive(Drop)]
pub struct MapPair<N> {
    /// The first.
    pub left: N,
    /// The second.
    pub right: N,
}

/// Pairs of maps.
pub type MapPairs<N> = Items<MapPair<N>>;

/// A case, which holds where its test is true and the maps of each pair are equal.
#[derive(Drop)]
pub struct Case<N> {
    /// A node of sort bool.
    pub test: N,
    /// The maps that have to be equal.
    pub maps: MapPairs<N>,
}

/// Cases, of which any number may hold under one valuation.
pub type Cases<N> = Items<Case<N>>;
