//! Laws of chains: a step stands at its place of the text, and a chain leads to a need.
ghost use Rattle.std.specs.Prelude.{ℕ, List, slice_get};
ghost use Rattle.twe_base.specs.declared.place.Place.{Place};
ghost use Rattle.region_paths.specs.declared.elements.Elem.{Elem};
ghost use Rattle.twe_program.specs.declared.program.Decl.{Decl};
ghost use Rattle.twe_program.specs.Program.{Program};
ghost use Rattle.effect_check.specs.declared.act.ActKind.TheVariants as acts;
ghost use Rattle.effect_check.specs.Acts.{filled_summary};
ghost use Rattle.effect_check.specs.Covered.{Does};
ghost use Rattle.effect_infer.specs.declared.needs.need.Need.{Need};
ghost use Rattle.effect_infer.specs.declared.needs.need.BodyStep.TheVariants.{Call, Touch};
ghost use Rattle.effect_infer.specs.needs.Needs.{IsNeed, effect_of};
ghost use Rattle.summary_comparing.specs.Chains.{LeadsToNeed};
ghost use Rattle.summary_comparing.specs.Placed.{HasStepAt};

/// At the place of a step the body does what the rules on effects see there: it accesses what the step accesses, or it calls
/// a method with the effects of the summary of the method that the step calls.
pub fn steps_are_at_their_places()
    ensures access { (p : Program) (decl : Decl) (need : Need) (place : Place) → HasStepAt p decl (Touch need) place
        → (point : ℕ) × Does p decl point (acts.Touch (effect_of need) place) }
    ensures call { (p : Program) (decl : Decl) (callee : ℕ) (args : List Elem) (place : Place)
        → HasStepAt p decl (Call callee args) place
        → (point : ℕ) × Does p decl point (acts.Call (filled_summary (slice_get p.methods callee) args) place) }
{}

/// What a chain leads to is a need of the method.
pub fn chains_lead_to_needs()
    ensures { (p : Program) (m : ℕ) (need : Need) (places : List Place) → LeadsToNeed p m need places → IsNeed p m need }
{}
