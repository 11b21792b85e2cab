//! Laws of terms over nodes, in every domain. Each function does nothing; its contract is the law.
ghost use Rattle.sort_term.specs.NodeTermLaws.{TermsStay, SortedTermsAreValid, TermsMeanTheirSorts, TermsDependOnVariables, GroundTermsHaveTreeSorts, GroundTermsMeanThemselves};

/// A term of valid nodes is the same term after its domain has grown: its sort and its meaning are what they were. The
/// nodes of a term that has a sort are valid.
pub fn terms_stay<N>()
    ensures stay { TermsStay N }
    ensures valid { SortedTermsAreValid N }
{}

/// Under a valuation of the domain's variables a term over nodes means a tree of its sort.
pub fn terms_mean_their_sorts<N>()
    ensures { TermsMeanTheirSorts N }
{}

/// Where the meanings of nodes depend on the values of the domain's variables alone, so do the trees that terms mean.
pub fn terms_depend_on_variables<N>()
    ensures { TermsDependOnVariables N }
{}

/// In the domain whose nodes are values a term has the sort that it has as a tree, and means itself.
pub fn ground_terms_are_trees()
    ensures sorts { GroundTermsHaveTreeSorts }
    ensures meanings { GroundTermsMeanThemselves }
{}
