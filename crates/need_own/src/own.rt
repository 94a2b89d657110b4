// What a term takes itself, and how what its children take is put together.
ghost use Rattle.std.specs.Prelude.{◌≡◌, ◌+◌, ◌≤◌};
ghost use Rattle.need_sums.specs.Walks.{place_limit, step_needs, charged_needs, own_needs, added_needs, chosen_needs};

use image_needs::Needs;
use need_sums::positions::{Mode, Position};
use need_sums::shapes::{Own, Role};
use need_sums::sums::{add, raise};
use read_records::numbers::{DomainNo, MAINLINE};

// One step under so many unfinished terms.
fn step_under(depth: u32) -> Needs
    ensures { result ≡ step_needs depth }
{
    Needs {
        steps: 1,
        frames: depth,
        ..Needs::default()
    }
}

// With so many bindings, cells and pieces, charged to a domain (document 02, card 9).
fn charged(n: Needs, dom: DomainNo, bindings: u32, cells: u32, pieces: u32) -> Needs
    ensures { result ≡ charged_needs n dom.0 bindings cells pieces }
{
    if dom.0 == MAINLINE.0 {
        Needs {
            bindings,
            cells,
            pieces,
            ..n
        }
    } else {
        Needs {
            other_bindings: bindings,
            other_cells: cells,
            other_pieces: pieces,
            ..n
        }
    }
}

// A term's own reduction; w is what all advice takes at a mark there.
fn reduction(own: Own, s: Position, w: Needs) -> Needs
    ensures { result ≡ Rattle.need_sums.specs.Walks.reduction_needs own s w }
{
    let n = step_under(s.depth);
    match own {
        Own::Nothing => Needs::default(),
        Own::Step => n,
        Own::Label => Needs { labels: 1, ..n },
        Own::Print => Needs { log: 1, ..n },
        Own::Advice => Needs { advice: 1, ..n },
        Own::Cell => charged(n, s.dom, 0, 1, 0),
        Own::Piece | Own::Advised => charged(n, s.dom, 0, 0, 1),
        Own::Binding => charged(n, s.dom, 1, 0, 0),
        Own::TwoBindings => charged(n, s.dom, 2, 0, 0),
        Own::Stack => charged(n, s.dom, 0, 0, s.kept),
        Own::Mark => add(n, w),
    }
}

// What an advice of domain p takes at a mark, without its body: its binding, and the steps out of the lower and of the sequence.
fn advice_steps(own: Own, s: Position, p: DomainNo) -> Needs
    requires { s.depth ≤ place_limit }
    ensures { result ≡ Rattle.need_sums.specs.Walks.advice_needs own s p.0 }
{
    match own {
        Own::Advised => {
            let steps = Needs {
                steps: 2,
                frames: s.depth + 1,
                ..Needs::default()
            };
            charged(steps, p, 1, 0, 0)
        }
        _ => Needs::default(),
    }
}

// What a term takes itself, by what is asked of it; w is what all advice takes at a mark that nothing encloses.
pub fn own_needs(own: Own, s: Position, p: DomainNo, w: Needs) -> Needs
    requires { s.depth ≤ place_limit }
    ensures { result ≡ own_needs own s p.0 w }
{
    match s.mode {
        Mode::Skip | Mode::AllAdvice => Needs::default(),
        Mode::Program => reduction(own, s, raise(s.depth, w)),
        Mode::Body => reduction(own, s, Needs::default()),
        Mode::InstalledAdvice => advice_steps(own, s, p),
    }
}

// Whether a child is one of two branches of which the dearer counts.
pub fn is_branch(s: Position, role: Role) -> bool
    ensures { result ≡ Rattle.need_sums.specs.Walks.is_branch s role }
{
    matches!(s.mode, Mode::Program | Mode::Body) && matches!(role, Role::Branch | Role::FirstBranch)
}

// What a child that takes x adds to its parent: nothing, if it is a branch.
pub fn added(s: Position, role: Role, x: Needs) -> Needs
    ensures { result ≡ added_needs s role x }
{
    if is_branch(s, role) {
        Needs::default()
    } else {
        x
    }
}

// The bindings of a branch: the first branch of a match binds so many variables.
fn branch_bindings(s: Position, role: Role, variables: u32) -> Needs
    ensures { result ≡ Rattle.need_sums.specs.Walks.branch_needs s role variables }
{
    match role {
        Role::FirstBranch => charged(Needs::default(), s.dom, variables, 0, 0),
        _ => Needs::default(),
    }
}

// What a child offers as a branch: nothing if it is none.
pub fn chosen(s: Position, role: Role, variables: u32, x: Needs) -> Needs
    ensures { result ≡ chosen_needs s role variables x }
{
    if is_branch(s, role) {
        add(branch_bindings(s, role, variables), x)
    } else {
        Needs::default()
    }
}
