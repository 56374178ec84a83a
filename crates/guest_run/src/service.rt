//! What all guests of a module share.
ghost use Rattle.std.specs.Prelude.{◌≡◌, Ok, Some, IfOk, IfErr};
ghost use Rattle.edge_imports.specs.Links as linking;
ghost use Rattle.module_machine.specs.Shared.{IsPrepared};
ghost use Rattle.guest_run.specs.declared.service.ServiceFault.TheVariants.{OutOfMemory};
ghost use Rattle.guest_run.specs.Services.{calls_of, fuel_in, limit_in, settings_in, random_in, IsCallsFault, IsServiceOf};

use edge_imports::{Hostcall, Linked, Links, links_of};
use fastly_toml::Settings;
use guest_calls::{Call, standing};
use module_machine::{Image, Prepared};
use std::alloc::{AllocError, AllocFailed, Global};

/// A module that runs here, with the settings that its guests read, the fuel of each of them, in instructions, the limit of
/// each in nanoseconds, and the seed of their random words.
#[derive(Drop)]
pub struct Service<'a> {
    pub(crate) linked: &'a Linked,
    pub(crate) image: Image<'a>,
    pub(crate) calls: Vec<Call>,
    pub(crate) settings: &'a Settings,
    pub(crate) fuel: u64,
    pub(crate) limit: u64,
    pub(crate) random: [u8; 32],
}

/// Why there is no service of a module.
#[derive(Clone, Copy, Debug, PartialEq, Eq)]
pub enum ServiceFault {
    /// It imports a call whose code doesn't stand yet.
    NotStanding,
    OutOfMemory,
}

impl From<AllocError> for ServiceFault {
    ghost use Rattle.guest_run.specs.declared.service.ServiceFault.TheVariants.{OutOfMemory};

    ghost from_gives = { λ _ fault. fault ≡ OutOfMemory };

    fn from(_: AllocError) -> ServiceFault {
        ServiceFault::OutOfMemory
    }
}

impl<T: Drop> From<AllocFailed<T>> for ServiceFault {
    ghost use Rattle.guest_run.specs.declared.service.ServiceFault.TheVariants.{OutOfMemory};

    ghost from_gives = { λ _ fault. fault ≡ OutOfMemory };

    fn from(_: AllocFailed<T>) -> ServiceFault {
        ServiceFault::OutOfMemory
    }
}

/// The calls of the imports, where all of them stand.
fn calls_of(alloc: Global, hostcalls: &[Hostcall]) -> Result<Vec<Call>, ServiceFault>
    ensures calls { IfOk result (λ calls. calls_of hostcalls.now ≡ Some calls.items) }
    ensures fault { IfErr result (IsCallsFault hostcalls.now) }
{
    let mut calls = Vec::new(alloc);
    for hostcall in hostcalls {
        match standing(*hostcall) {
            Some(call) => calls.push(call)?,
            None => return Err(ServiceFault::NotStanding),
        }
    }
    Ok(calls)
}

/// To what the module is linked.
fn links_of_linked(alloc: Global, linked: &Linked) -> Result<Links, ServiceFault>
    requires { linking.linked linked.now.whole ≡ Ok linked.now.links }
    ensures links { IfOk result (λ links. links ≡ linked.now.links) }
    ensures fault { IfErr result (λ fault. fault ≡ OutOfMemory) }
{
    match links_of(alloc, linked.valid().module()) {
        Ok(links) => Ok(links),
        Err(_) => Err(ServiceFault::OutOfMemory),
    }
}

impl<'a> Service<'a> {
    /// The service of a module with what was made of it once. It is refused exactly where a call that the module imports
    /// doesn't stand yet, unless memory runs out.
    pub fn new(
        alloc: Global,
        linked: &'a Linked,
        prepared: &'a Prepared,
        settings: &'a Settings,
        fuel: u64,
        limit: u64,
        random: [u8; 32],
    ) -> Result<Service<'a>, ServiceFault>
        requires linked { linking.linked linked.now.whole ≡ Ok linked.now.links }
        requires prepared { IsPrepared linked.now.whole prepared.now }
        ensures made { IfOk result (IsServiceOf linked.now) }
        ensures fuel { IfOk result (λ service. fuel_in service ≡ fuel) }
        ensures limit { IfOk result (λ service. limit_in service ≡ limit) }
        ensures settings { IfOk result (λ service. settings_in service ≡ settings.now) }
        ensures random { IfOk result (λ service. random_in service ≡ random) }
        ensures fault { IfErr result (IsCallsFault linked.now.links.calls) }
    {
        let links = links_of_linked(alloc, linked)?;
        let calls = calls_of(alloc, links.calls.items())?;
        let image = Image::new(alloc, linked.valid(), prepared)?;
        Ok(Service {
            linked,
            image,
            calls,
            settings,
            fuel,
            limit,
            random,
        })
    }
}
