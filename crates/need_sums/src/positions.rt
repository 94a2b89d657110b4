// Where a term stands in the walk.
ghost use Rattle.std.specs.Prelude.{◌≡◌, ◌+◌, ◌≤◌};
ghost use Rattle.need_sums.specs.Walks.{place_limit, child_position};

use crate::shapes::Role;
use read_records::numbers::DomainNo;

// What is asked of a term: nothing; what it takes where it stands, in the program or in the body of an advice; or what the advice
// that it installs takes at a mark, where the term is what is installed or is not.
#[derive(Clone, Copy, PartialEq, Eq)]
pub enum Mode {
    Skip,
    Program,
    Body,
    AllAdvice,
    InstalledAdvice,
}

// And its place: the domain, the unfinished terms around it, and the values that are kept around it.
#[derive(Clone, Copy)]
pub struct Position {
    pub mode: Mode,
    pub dom: DomainNo,
    pub depth: u32,
    pub kept: u32,
}

// What is asked of a child of a term of which it is asked what its advice takes.
fn advice_mode(role: Role) -> Mode
    ensures { result ≡ Rattle.need_sums.specs.Walks.advice_mode role }
{
    match role {
        Role::Skipped | Role::AdviceBody => Mode::Skip,
        Role::Installed => Mode::InstalledAdvice,
        _ => Mode::AllAdvice,
    }
}

impl Position {
    fn asked(self, mode: Mode) -> Self
        ensures { result ≡ Rattle.need_sums.specs.Walks.asked self mode }
    {
        Self { mode, ..self }
    }

    // Inside the parent, at the domain p.
    fn inside(self, p: DomainNo) -> Self
        requires { self.depth ≤ place_limit }
        ensures { result ≡ Rattle.need_sums.specs.Walks.inside self p.0 }
    {
        Self {
            dom: p,
            depth: self.depth + 1,
            ..self
        }
    }

    // A child of a term that runs.
    fn running_child(self, role: Role, p: DomainNo) -> Self
        requires { (self.depth ≤ place_limit) × (self.kept ≤ place_limit) }
        ensures { result ≡ Rattle.need_sums.specs.Walks.running_child self role p.0 }
    {
        match role {
            Role::Skipped | Role::AdviceBody => self.asked(Mode::Skip),
            Role::Operand | Role::Installed => self.inside(self.dom),
            Role::Lowered => self.inside(p),
            Role::Kept => Self {
                depth: self.depth + 1,
                kept: self.kept + 1,
                ..self
            },
            Role::Next | Role::Branch | Role::FirstBranch => self,
        }
    }

    // A child of what is installed: the body of an advice runs lowered to its domain, in a sequence (document 003, figure 5).
    fn installed_child(self, role: Role, p: DomainNo) -> Self
        requires { self.depth ≤ place_limit }
        ensures { result ≡ Rattle.need_sums.specs.Walks.installed_child self role p.0 }
    {
        match role {
            Role::AdviceBody => Self {
                mode: Mode::Body,
                dom: p,
                depth: self.depth + 2,
                kept: self.kept,
            },
            _ => self.asked(advice_mode(role)),
        }
    }

    // A child with a role; p is the domain that the term gives to a body.
    pub fn child_position(self, role: Role, p: DomainNo) -> Self
        requires { (self.depth ≤ place_limit) × (self.kept ≤ place_limit) }
        ensures { result ≡ child_position self role p.0 }
    {
        match self.mode {
            Mode::Skip => self,
            Mode::Program | Mode::Body => self.running_child(role, p),
            Mode::AllAdvice => self.asked(advice_mode(role)),
            Mode::InstalledAdvice => self.installed_child(role, p),
        }
    }
}
