// What a rule comes to: the refusal of the first of its tests that fails.
ghost use Rattle.std.specs.Prelude.{◌≡◌, true};
ghost use Rattle.check_rules.specs.Judged.{judged};

use verdict::Verdict;

// 14 and 15 for a term whose record stands at an offset: whether its types fit, and whether its domains do.
pub fn judge(at: usize, typed: bool, allowed: bool) -> Verdict
    ensures { result ≡ judged at (record { bound = true; typed = typed; allowed = allowed }) }
{
    if !typed {
        return Err(image::Refused {
            why: image::Refusal::TypeRule,
            place: at,
        });
    }
    if !allowed {
        return Err(image::Refused {
            why: image::Refusal::DomainRule,
            place: at,
        });
    }
    Ok(())
}
