// What is proved of the definitions themselves.
ghost use Rattle.cms_exec.specs.LawsExec.{AlwaysBegins};

/// A procedure that a line calls always begins: a line has too few words for a fault.
pub fn start_laws()
    ensures { AlwaysBegins }
{}
