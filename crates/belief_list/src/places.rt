// Where numbers stand in a list.
ghost use Rattle.std.specs.Prelude.{◌≡◌, ◌<◌, IfOk};
ghost use Rattle.std.specs.List.{All};
ghost use Rattle.belief_list.specs.Tables.{place_in, IsTable};

use std::alloc::Global;
use tmm_model::NoMemory;

// A place of each number in the list, none under a number that is not on it.
pub(crate) fn places_by_number(
    alloc: Global,
    numbers: &[u32],
) -> Result<Vec<Option<usize>>, NoMemory>
    ensures { IfOk result (λ places. IsTable numbers.now places.items) }
{
    let mut places = Vec::from_elem(alloc, None, limit_of(numbers))?;
    for (i, x) in numbers.iter().enumerate() {
        places[*x as usize] = Some(i);
    }
    Ok(places)
}

// A limit that all the numbers are below.
fn limit_of(numbers: &[u32]) -> usize
    ensures { All (λ x. x < result) numbers.now }
{
    let mut limit = 0;
    for x in numbers {
        limit = limit.max(*x as usize + 1);
    }
    limit
}

// The place under a number.
pub(crate) fn place_of(places: &[Option<usize>], x: u32) -> Option<usize>
    ensures { result ≡ place_in places.now x }
{
    places.get(x as usize).copied().flatten()
}
