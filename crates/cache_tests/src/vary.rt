//! Texts with the rules that they name, or their faults; variants.

use cache_types::Rule;
use std::alloc::AllocError;
use std::test::Fail;
use vary_rules::*;

/// The names of a rule, each behind a space.
fn spelled(rt: &HostRuntime, rule: &Rule) -> Result<Vec<u8>, AllocError> {
    let mut text = Vec::new(rt.alloc());
    for name in rule.items() {
        text.push(b' ')?;
        text.extend_from_slice(name.bytes())?;
    }
    Ok(text)
}

/// Texts with the names of their rule.
const GOOD: [(&str, &str); 5] = [
    ("", ""),
    (" ,, ", ""),
    ("Accept-Language", " accept-language"),
    ("b, a A,ab", " a ab b"),
    ("~ !", " ! ~"),
];

#[test]
fn texts_name_rules(rt: HostRuntime) -> Result<(), Fail> {
    for (text, names) in GOOD {
        let rule = read_rule(rt.alloc(), text.as_bytes()).map_err(|_| "no rule")?;
        let found = spelled(&rt, &rule)?;
        assert_eq!(rt; found.as_slice(), names.as_bytes());
    }
    Ok(())
}

/// Texts that name none, and why.
const BAD: [(&str, RuleFault); 5] = [
    ("a;b", RuleFault::BadName),
    ("a:", RuleFault::BadName),
    ("a\tb", RuleFault::BadName),
    (
        "a,b,c,d,e,f,g,h,i,j,k,l,m,n,o,p,q,r,s,t,u,v,w,x,y,z,aa,ab,ac,ad,ae,af,ag",
        RuleFault::TooMany,
    ),
    (
        "a,b,c,d,e,f,g,h,i,j,k,l,m,n,o,p,q,r,s,t,u,v,w,x,y,z,aa,ab,ac,ad,ae,af,ag,;",
        RuleFault::BadName,
    ),
];

#[test]
fn other_texts_are_refused(rt: HostRuntime) -> Result<(), Fail> {
    for (text, fault) in BAD {
        let told = read_rule(rt.alloc(), text.as_bytes()).err();
        assert_eq!(rt; told, Some(fault));
    }
    Ok(())
}

const TEXTS: [(RuleFault, &str); 3] = [
    (RuleFault::BadName, "rule: bad-name"),
    (RuleFault::TooMany, "rule: too-many-names"),
    (RuleFault::OutOfMemory, "rule: out-of-memory"),
];

#[test]
fn faults_have_texts(rt: HostRuntime) {
    for (fault, text) in TEXTS {
        assert_eq!(rt; fault.text().as_bytes(), text.as_bytes());
    }
}
