//! Laws of circuits of controllers: each function does nothing, and its contract is the law.

ghost use Rattle.std.specs.Prelude.{◌≡◌, ℕ, ◌<◌, List, map, Some};
ghost use Rattle.std.specs.List.{AllByRecursion};
ghost use Rattle.letter_space.specs.SpaceTree.{SpaceTree};
ghost use Rattle.letter_space.specs.Letters.{valuation_count};
ghost use Rattle.machines.specs.MachineTree.{ControllerTree, IsController};
ghost use Rattle.machines.specs.Moves.{FitsSpace};
ghost use Rattle.circuits.specs.Circuits.{CircuitTree};
ghost use Rattle.controller_circuits.specs.OfController.{inputs_at, IsCircuitOf};
ghost use Rattle.controller_circuits.specs.Runs.{outputs_along, updates_along};

/// Over any list of valuations from the start the outputs of a controller's circuit are the updates that the
/// controller makes.
pub fn circuits_choose_as_controllers()
    ensures { (space : SpaceTree) (m : ControllerTree) (c : CircuitTree) → IsController m → FitsSpace space m →
        IsCircuitOf space m c →
        (valuations : List ℕ) → AllByRecursion (λ v. v < valuation_count space) valuations →
        updates_along space m valuations ≡ Some (outputs_along c (map (inputs_at space) valuations)) }
{}
