ghost use Rattle.std.specs.Prelude.{◌≡◌};
ghost use Rattle.spv_typing.specs.Operations as operations;

/// What is computed component by component: a scalar or a vector, of booleans or of integers.
#[derive(Clone, Copy, Debug, PartialEq, Eq)]
pub struct Shape {
    /// Its components are booleans, and else integers.
    pub is_boolean: bool,
    /// The number of components; 1 for a scalar.
    pub count: u32,
}

/// Whether it is so many booleans, or else so many integers.
pub fn has_shape(is_boolean: bool, count: u32, shape: Option<Shape>) -> bool
    ensures { result ≡ operations.has_shape is_boolean count shape }
{
    match shape {
        Some(shape) => shape.is_boolean == is_boolean && shape.count == count,
        None => false,
    }
}

/// The number of components; 0 where there is no shape.
pub fn count_of(shape: Option<Shape>) -> u32
    ensures { result ≡ operations.count_of shape }
{
    match shape {
        Some(shape) => shape.count,
        None => 0,
    }
}
