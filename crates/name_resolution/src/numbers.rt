// Numbers with a width.
ghost use Rattle.std.specs.Prelude.{◌≡◌, option_copied};
ghost use Rattle.data_value.specs.Sorts.{is_width};
ghost use Rattle.name_resolution.specs.Known.{literal_of};
ghost use Rattle.name_resolution.specs.Reads.{number_at};
ghost use Rattle.name_resolution.specs.Within.{fits_place};

use data_value::{DataSort, Scalar, Value, fits_width, is_value};
use sort_term::Sort;

/// Whether a number is a width in bits, from 1 to 64. It takes no memory.
pub fn is_width(width: u64) -> bool
    ensures { result ≡ is_width width }
{
    1 <= width && width <= 64
}

/// The bit vector of a width and a number; None where the width is not from 1 to 64 or doesn't hold the number.
pub fn bits(width: u64, number: u64) -> Option<Scalar>
    ensures { result ≡ literal_of width number }
{
    if !is_width(width) {
        return None;
    }
    let scalar = Scalar::Bits {
        width: width as u8,
        bits: number,
    };
    if is_value(&Value::One(scalar)) {
        Some(scalar)
    } else {
        None
    }
}

/// The bit vector of a bare number, where the sort of its place is one of bit vectors that hold it; else None.
pub fn bare(place: Option<&Sort>, number: u64) -> Option<Scalar>
    ensures { result ≡ number_at (option_copied place.entry) number }
{
    match place {
        Some(Sort::Plain(DataSort::Bits(width))) => bits(*width as u64, number),
        _ => None,
    }
}

/// Whether a bare number fits the width of its place, if its sort is one of bit vectors.
pub fn fits_place(place: Option<&Sort>, number: u64) -> bool
    ensures { result ≡ fits_place (option_copied place.entry) number }
{
    match place {
        Some(Sort::Plain(DataSort::Bits(width))) => fits_width(*width, number),
        _ => true,
    }
}
