/// Where the words so far end in the grammar of a dump: what may come next is told by the state alone.
#[derive(Clone, Copy, Debug, PartialEq, Eq)]
pub enum State {
    /// Before the scope: headings, or `$scope`.
    Front,
    /// In a heading before the scope.
    FrontSaid,
    /// Behind `$scope`.
    ScopeKind,
    /// Behind the kind of the scope.
    ScopeName,
    /// Behind the name of the scope.
    ScopeEnd,
    /// In the scope: headings, variables, or `$upscope`.
    Variables,
    /// In a heading in the scope.
    VariablesSaid,
    /// Behind `$var`.
    NetKind,
    /// Behind `wire` or `reg`.
    Width,
    /// Behind the width of a variable.
    Code,
    /// Behind the code of a variable.
    Name,
    /// Behind the name of a variable.
    Range,
    /// Behind the range of a variable.
    VarEnd,
    /// Behind `$upscope`.
    UpscopeEnd,
    /// Behind the scope: headings, or `$enddefinitions`.
    Back,
    /// In a heading behind the scope.
    BackSaid,
    /// Behind `$enddefinitions`.
    DefinitionsEnd,
    /// Behind the definitions, where the text may end.
    Entries,
    /// Behind the bits of a change.
    Taker,
    /// In `$dumpvars`.
    Dump,
    /// Behind the bits of a change in `$dumpvars`.
    DumpTaker,
    /// In a comment.
    Commented,
}
