// What holds of layers whatever the buses below them are.
ghost use Rattle.std.specs.Prelude.{ℕ};
ghost use Rattle.bus.specs.Contract.{Cells};
ghost use Rattle.layers.specs.Below.{WriteReaches, LayersDetermined};
ghost use Rattle.layers.specs.Laws.{LayersCompose, LayerLaws};

// Layers compose by cells alone: no calls tell a stack of layers over one bus from the same stack over another bus with the same cells.
pub fn layers_compose_by_cells_alone()
    ensures { LayersCompose }
{}

// Which layers change nothing, and that two shifts are one.
pub fn layers_obey_laws()
    ensures { (one other : Cells) → LayerLaws one other }
{}

// What a write through a layer does to the buses below it, as the contract of `write` tells it.
pub fn a_write_reaches_one_bus_below_at_most()
    ensures { (address byte : ℕ) → WriteReaches address byte }
{}

// A layer holds nothing beside its cells and its shape: another with the same has the same numbers, and below it the same cells and shapes.
pub fn cells_and_shape_determine_a_layer()
    ensures { LayersDetermined }
{}
