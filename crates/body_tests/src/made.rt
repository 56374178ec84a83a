//! Heads, their names and values, and bodies of parts.

use cache_types::{Copied, Field, Items, Octets};
use edge_body::*;
use std::alloc::{AllocError, Global};
use std::test::Fail;

fn fields(alloc: Global) -> Result<Items<Field>, AllocError> {
    let name = Octets::of(alloc, b"host")?;
    let value = Octets::of(alloc, b"x")?;
    Ok(Items::of(vec![in alloc; Field { name, value }]?))
}

#[test]
fn names_values_and_copies(rt: HostRuntime) -> Result<(), Fail> {
    let alloc = rt.alloc();
    assert!(rt; !is_field_name(b"Host") && !is_field_name(b"") && !is_field_value(b"a\nb"));
    let method = Octets::of(alloc, b"GET")?;
    let uri = Octets::of(alloc, b"http://x/")?;
    let mut head = RequestHead::new(method, uri, 2, Items::of(Vec::new(alloc)));
    let fields = fields(alloc)?;
    assert!(rt; are_fields(&fields));
    head.set_fields(fields);
    assert_eq!(rt; head.copy(alloc)?.fields().items().len(), 1);
    Ok(())
}

#[test]
fn a_body_of_parts(rt: HostRuntime) -> Result<(), Fail> {
    let alloc = rt.alloc();
    let mut body = Body::new(alloc);
    body.push_back(Part::Own(Octets::of(alloc, b"two")?))?;
    body.push_front(Part::Own(Octets::of(alloc, b"one")?))?;
    let mut other = Body::new(alloc);
    other.push_back(Part::Rest {
        hit: 7,
        place: 3,
        length: Some(10),
    })?;
    body.join(other);
    assert_eq!(rt; body.known_length(), Some(13));
    assert!(rt; matches!(body.pop_front(), Some(Part::Own(_))));
    assert!(rt; body.first().is_some());
    Ok(())
}
