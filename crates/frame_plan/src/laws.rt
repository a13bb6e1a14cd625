//! Laws of the definitions, each as the contract of a function that does nothing.

ghost use Rattle.std.specs.Prelude.{◌≡◌, length};
ghost use Rattle.session_rules.specs.Steps.{Play, has_work, take_of};
ghost use Rattle.session_core.specs.SessionModel.{SessionModel, asked_by, is_suppressed};
ghost use Rattle.frame_plan.specs.Takes.{DeskModel};
ghost use Rattle.frame_plan.specs.Plans.{is_work, take_at, IsPlayOf};

/// A take has work, and finds, what the steps of a session say of it.
pub fn takes_are_those_of_steps()
    ensures work { (s : SessionModel) (d : DeskModel) (p : Play) → IsPlayOf s d p → is_work s d ≡ has_work s.head.size p d.v }
    ensures take { (s : SessionModel) (d : DeskModel) (p : Play) → IsPlayOf s d p → take_at s d ≡ take_of p d.v }
{}
