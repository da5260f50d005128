//! Names and lists: with ample memory there is a copy, and it is equal. The text of a name and the items of a list are given back.
use crate::bits::tables::check;
use gg_bits::{Ids, Items, Name, Names};
use std::alloc::{AllocError, Global};

// A list of two names with this text: one that is made of a `String`, and its copy.
fn two_names(alloc: Global, text: &str) -> Result<Names, AllocError> {
    let name = Name::from(String::from_str(alloc, text)?);
    let copy = name.clone()?;
    Ok(Names::from(vec![in alloc; name, copy]?))
}

// Whether a list is equal to its copy.
fn is_copied<T: Clone + PartialEq + Drop>(list: &Items<T>) -> bool {
    match list.clone() {
        Ok(copy) => copy == *list,
        Err(_) => false,
    }
}

// Whether these are two equal names with this text.
fn are_equal(names: &[Name], text: &str) -> bool {
    names.len() == 2 && names[0].as_str() == text && names[1] == names[0]
}

// Whether a list of two names with this text is equal to its copy, and gives both names back.
fn are_names(alloc: Global, text: &str) -> bool {
    match two_names(alloc, text) {
        Ok(names) => is_copied(&names) && are_equal(&names.into_vec(), text),
        Err(_) => false,
    }
}

// Whether a list of these numbers is equal to its copy, and gives all of them back.
fn are_numbers(alloc: Global, numbers: &[u32]) -> bool {
    match Vec::from_slice(alloc, numbers) {
        Ok(items) => {
            let ids = Ids::from(items);
            is_copied(&ids) && ids.as_slice() == numbers && ids.into_vec().len() == numbers.len()
        }
        Err(_) => false,
    }
}

#[test]
fn texts_and_lists(rt: HostRuntime) {
    check(&rt, are_names(rt.alloc(), "top.n"), &"names");
    check(&rt, are_numbers(rt.alloc(), &[7]), &"numbers");
}
