//! The registry of accepted classes, and their ids.

ghost use Rattle.std.specs.Prelude.{◌≡◌, ◌⊎◌, IfOk, IfErr};
ghost use Rattle.jtypes.specs.Profile.{Third};

use boxcar::Pushed;
use jtypes::Refusal;
use std::alloc::{AllocError, Global};
use std::marker::Model;
use std::sync::Wait;
use verify::{Verified, verify};

/// The accepted classes, shared by threads. A class is never removed or moved.
#[derive(Drop)]
pub struct Registry {
    classes: boxcar::Vec<Verified>,
}

impl Model for Registry {
    ghost use Rattle.boxcar.specs.Table.{Shelves, shelves_coded};

    ghost Value = { Shelves };

    ghost coded = { shelves_coded };

    ghost view = { λ r. r.classes };
}

/// The id that `define` returns for a class. Contracts see the position in the registry, and the class.
#[derive(Drop)]
pub struct ClassId {
    token: Pushed<Verified>,
}

impl Model for ClassId {
    ghost use Rattle.boxcar.specs.Table.{Where};
    ghost use Rattle.typecheck.specs.Typing.{Class};

    ghost Value = { Where Class };

    ghost view = { λ id. id.token };
}

impl Registry {
    ghost use Rattle.std.specs.Prelude.{◌≡◌, ◌⊎◌, IfOk, IfErr};
    ghost use Rattle.jtypes.specs.declared.refusal.Refusal.{Refusal};
    ghost use Rattle.verdict.specs.Verdict.{IsAccepted, IsClassOf, IsRefused};
    ghost use Rattle.registry.specs.Ids.{IsOf, class_of};

    /// Returns a registry without classes.
    pub fn new(alloc: Global) -> Result<Registry, AllocError> {
        Ok(Registry {
            classes: boxcar::Vec::new(alloc)?,
        })
    }

    /// Verifies the bytes of a class (JVMS §4, §4.10.1) and adds it. Returns its id, or the refusal.
    /// It may wait for another call that adds a class.
    pub fn define<R: Wait>(&self, rt: &R, alloc: Global, bytes: &[u8]) -> Result<ClassId, Refusal>
        ensures given { IfOk result (λ id. IsOf self.now id) }
        ensures class { IfOk result (λ id. IsClassOf Third bytes.now (class_of id)) }
        ensures accepted { IfOk result (λ _. IsAccepted Third bytes.now) }
        ensures refused { IfErr result (λ r. (r ≡ Refusal.NoMemory) ⊎ IsRefused Third bytes.now r) }
    {
        let class = verify(alloc, bytes)?;
        match self.classes.push_shown(rt, class) {
            Ok(token) => Ok(ClassId { token }),
            Err(_) => Err(Refusal::NoMemory),
        }
    }

    /// Returns the class with this id, which must be from this registry.
    pub fn class<'a>(&'a self, id: &ClassId) -> &'a Verified
        requires { IsOf self.now id.now }
        ensures { result.now ≡ class_of id.now }
    {
        self.classes.value(&id.token)
    }
}
