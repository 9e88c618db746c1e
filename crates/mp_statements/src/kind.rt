// The kinds of names, and the commands that are noted.

/// What a declaration declares.
#[derive(Clone, Copy, Debug, PartialEq, Eq)]
pub enum NameKind {
    Endogenous,
    Exogenous,
    Parameter,
}

/// A command that is taken and noted, and does nothing else.
#[derive(Clone, Copy, Debug, PartialEq, Eq)]
pub enum Command {
    Check,
    Resid,
    Rplot,
    ModelDiagnostics,
    OccbinSetup,
    OccbinSolver,
}
