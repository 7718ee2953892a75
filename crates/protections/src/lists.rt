// Growing lists.
ghost use Rattle.std.specs.Prelude.{◌≡◌, [], ◌∷◌, ◌++◌, OnOk};
ghost use Rattle.std.specs.List.{cons_option};

use tmm_model::{NoMemory, Seq};

// Appends an item.
pub(crate) fn push<T: Drop>(list: &mut Seq<T>, item: T) -> Result<(), NoMemory>
    ensures { OnOk result (list.new.items ≡ list.old.items ++ item ∷ []) }
{
    match list.push(item) {
        Ok(()) => Ok(()),
        Err(_) => Err(NoMemory),
    }
}

// Appends the item that there is.
pub(crate) fn push_some<T: Drop>(list: &mut Seq<T>, item: Option<T>) -> Result<(), NoMemory>
    ensures { OnOk result (list.new.items ≡ list.old.items ++ cons_option item []) }
{
    match item {
        Some(item) => push(list, item),
        None => Ok(()),
    }
}

// Appends an element.
pub(crate) fn push_to<T: Drop>(list: &mut Vec<T>, element: T) -> Result<(), NoMemory>
    ensures { OnOk result (list.new.items ≡ list.old.items ++ element ∷ []) }
{
    match list.push(element) {
        Ok(()) => Ok(()),
        Err(_) => Err(NoMemory),
    }
}

// Appends the element that there is.
pub(crate) fn push_some_to<T: Drop>(list: &mut Vec<T>, element: Option<T>) -> Result<(), NoMemory>
    ensures { OnOk result (list.new.items ≡ list.old.items ++ cons_option element []) }
{
    match element {
        Some(element) => push_to(list, element),
        None => Ok(()),
    }
}
