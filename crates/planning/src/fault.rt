// Why there is no checked plan.
ghost use Rattle.std.specs.Prelude.{◌≡◌};
ghost use Rattle.planning.specs.declared.fault.PlanFault.TheVariants.{Build, Check};

use builder::fault::BuildFault;
use checking::fault::CheckFault;

#[derive(Clone, Copy, PartialEq, Eq, Debug)]
pub enum PlanFault {
    // nothing is built
    Build(BuildFault),
    // what is built is not checked: a table is too short, or memory is wanting
    Check(CheckFault),
}

impl From<BuildFault> for PlanFault {
    ghost from_gives = { λ f r. r ≡ Build f };

    fn from(fault: BuildFault) -> PlanFault {
        PlanFault::Build(fault)
    }
}

impl From<CheckFault> for PlanFault {
    ghost from_gives = { λ f r. r ≡ Check f };

    fn from(fault: CheckFault) -> PlanFault {
        PlanFault::Check(fault)
    }
}
