ghost use Rattle.std.specs.Prelude.{◌≡◌, ℕ, ◌*◌, ◌+◌, min};
ghost use Rattle.std.specs.Option.{option_map};
ghost use Rattle.spv_meaning.specs.Types.{DataType, Void, Boolean, Integer, Vector, Array, RuntimeArray};
ghost use Rattle.spv_declarations.specs.Depth.{is_offset as offset_in, is_stride as stride_in};
ghost use Rattle.spv_types.specs.Facts.{in_64_bits, facts};

/// Deeper than a type may nest.
pub const DEEPER: u32 = 256;

/// What is kept of a type.
#[derive(Clone, Copy, Debug)]
pub struct TypeFacts {
    /// How deep it nests, where a scalar has depth 1; 256 where that is deeper.
    pub depth: u32,
    /// There is no Bool in it, and decorations tell where each part lies.
    pub is_laid_out: bool,
    /// It is a type of values: Bool, Int, Vector, Array or Struct.
    pub is_data: bool,
    /// How many words a value has, packed. None where that passes 64 bits.
    pub cells: Option<u64>,
}

/// The product, where 64 bits have room for it.
fn times(count: u32, cells: Option<u64>) -> Option<u64>
    ensures { (n : ℕ) → cells ≡ in_64_bits n → result ≡ in_64_bits (count * n) }
{
    match cells {
        Some(cells) => cells.checked_mul(u64::from(count)),
        None if count == 0 => Some(0),
        None => None,
    }
}

/// The sum, where 64 bits have room for it.
pub fn plus(cells: Option<u64>, other: Option<u64>) -> Option<u64>
    ensures { (n m : ℕ) → cells ≡ in_64_bits n → other ≡ in_64_bits m → result ≡ in_64_bits (n + m) }
{
    cells?.checked_add(other?)
}

/// The depth of a type whose deepest part has this depth.
pub fn behind(depth: u32) -> u32
    ensures { (n : ℕ) → depth ≡ min n 256 → result ≡ min (1 + n) 256 }
{
    depth.min(DEEPER - 1) + 1
}

/// Whether a stride is given and is some whole words, in bytes.
fn is_stride(stride: Option<u32>) -> bool
    ensures { result ≡ stride_in stride }
{
    match stride {
        Some(bytes) => bytes > 0 && bytes % 4 == 0,
        None => false,
    }
}

/// Whether an offset is given and is whole words, in bytes.
pub fn is_offset(offset: Option<u32>) -> bool
    ensures { result ≡ offset_in offset }
{
    match offset {
        Some(bytes) => bytes % 4 == 0,
        None => false,
    }
}

impl TypeFacts {
    /// What has no value.
    pub fn void() -> TypeFacts
        ensures { result ≡ facts Void }
    {
        TypeFacts {
            depth: 0,
            is_laid_out: true,
            is_data: false,
            cells: Some(0),
        }
    }

    pub fn boolean() -> TypeFacts
        ensures { result ≡ facts Boolean }
    {
        TypeFacts {
            depth: 1,
            is_laid_out: false,
            is_data: true,
            cells: Some(1),
        }
    }

    /// An integer of so many bits.
    pub fn integer(width: u32, is_signed: bool) -> TypeFacts
        ensures { result ≡ facts (Integer width is_signed) }
    {
        let _ = is_signed;
        TypeFacts {
            depth: 1,
            is_laid_out: true,
            is_data: true,
            cells: Some(u64::from(width / 32)),
        }
    }

    /// A vector of so many such components.
    pub fn vector(self, count: u32) -> TypeFacts
        ensures { (t : DataType) → self ≡ facts t → result ≡ facts (Vector count t) }
    {
        TypeFacts {
            depth: behind(self.depth),
            is_laid_out: self.is_laid_out,
            is_data: true,
            cells: times(count, self.cells),
        }
    }

    /// An array of so many such elements, so many bytes apart.
    pub fn array(self, stride: Option<u32>, count: u32) -> TypeFacts
        ensures { (t : DataType) → self ≡ facts t → result ≡ facts (Array stride count t) }
    {
        TypeFacts {
            depth: behind(self.depth),
            is_laid_out: is_stride(stride) && self.is_laid_out,
            is_data: true,
            cells: times(count, self.cells),
        }
    }

    /// A runtime array of such elements, so many bytes apart.
    pub fn runtime_array(self, stride: Option<u32>) -> TypeFacts
        ensures { (t : DataType) → self ≡ facts t → result ≡ facts (RuntimeArray stride t) }
    {
        TypeFacts {
            depth: behind(self.depth),
            is_laid_out: is_stride(stride) && self.is_laid_out,
            is_data: false,
            cells: Some(0),
        }
    }
}
