use crate::flows::Flow;
use spv_blocks::Function;
use std::marker::Model;

/// The blocks of a function that breaks no rule on structured control flow, with its tables.
#[derive(Drop)]
pub struct Shape {
    function: Function,
    flow: Flow,
}

impl Model for Shape {
    ghost use Rattle.spv_blocks.specs.Blocks.{Code};
    ghost use Rattle.spv_blocks.specs.Tables.{found};
    ghost use Rattle.spv_walking.specs.Table.{context_of};
    ghost use Rattle.spv_flow.specs.Shapes.{IsShaped};

    ghost Value = { Code };

    ghost view = { λ shape. shape.function };

    ghost invariant = { λ shape. IsShaped shape.function (found shape.flow.enterers) (context_of shape.flow.walked) };
}

impl Shape {
    ghost use Rattle.std.specs.Prelude.{◌≡◌};
    ghost use Rattle.spv_blocks.specs.Tables.{found};
    ghost use Rattle.spv_walking.specs.Table.{context_of};
    ghost use Rattle.spv_flow.specs.Shapes.{IsShaped};

    /// A function with its tables.
    pub fn new(function: Function, flow: Flow) -> Shape
        requires { IsShaped function (found flow.enterers) (context_of flow.walked) }
        ensures { result ≡ function }
    {
        Shape { function, flow }
    }

    /// The blocks of the function.
    pub fn function(&self) -> &Function
        ensures { result.now ≡ self.now }
    {
        &self.function
    }

    /// The tables of the function.
    pub fn flow(&self) -> &Flow
        ensures { IsShaped self.now (found result.now.enterers) (context_of result.now.walked) }
    {
        &self.flow
    }
}
