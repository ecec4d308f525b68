// Files by name, in the order of names.
ghost use Rattle.std.specs.Prelude.{◌≡◌, ◌++◌, [], length, take, OnOk, OnErr, IfOk, IsSome, MatchOption, IfSome};
ghost use Rattle.tl_memhost.specs.Held.{IsFirstFrom};
ghost use Rattle.std.specs.Option.{option_map, unwrap_or};
ghost use Rattle.std.specs.FinMap as map;
ghost use Rattle.tl_model.specs.Volume.{at, SameBut, IsNext};
ghost use Rattle.tl_path.specs.Path.{IsPath};

use crate::record::Did;
use std::alloc::{AllocError, Global};
use std::collections::BTreeMap;
use std::marker::Model;
use std::ops::Bound;

#[derive(Drop)]
pub(crate) struct Files {
    held: BTreeMap<Vec<u8>, Vec<u8>>,
}

impl Model for Files {
    ghost use Rattle.tl_model.specs.Volume.{Volume, volume_code};

    ghost Value = { Volume };

    ghost coded = { volume_code };

    ghost use Rattle.tl_memhost.specs.Held.{volume_of, ArePaths};

    ghost view = { λ f. volume_of f.held.entries };

    ghost invariant = { λ f. ArePaths f.held.entries };
}

// The least name from a bound on.
fn first_from<'a>(held: &'a BTreeMap<Vec<u8>, Vec<u8>>, start: Bound<&Vec<u8>>) -> Option<&'a [u8]>
    ensures { IsFirstFrom start.entry held.now.entries (option_map (λ n. n.now) result) }
{
    match held.range((start, Bound::Unbounded)).next() {
        Some((name, _)) => Some(name.as_slice()),
        None => None,
    }
}

impl Files {
    ghost use Rattle.tl_memhost.specs.Record.{cut, unheld};

    pub(crate) fn new(alloc: Global) -> Files
        ensures { result ≡ map.empty }
    {
        Files {
            held: BTreeMap::new(alloc),
        }
    }

    // What a name holds; None where it is absent.
    pub(crate) fn get(&self, name: &[u8]) -> Option<&[u8]>
        ensures { option_map (λ b. b.now) result ≡ at self.now name.now }
    {
        match self.held.get(name) {
            Some(bytes) => Some(bytes.as_slice()),
            None => None,
        }
    }

    // The least name after another one, or the least of all.
    pub(crate) fn next(&self, after: Option<&Vec<u8>>) -> Option<&[u8]>
        ensures next { IsNext self.now (option_map (λ k. k.now.items) after.entry) (option_map (λ n. n.now) result) }
        ensures path { IfSome result (λ n. IsPath n.now) }
    {
        match after {
            Some(name) => first_from(&self.held, Bound::Excluded(name)),
            None => first_from(&self.held, Bound::Unbounded),
        }
    }

    // Makes a name hold these bytes, and gives what it held before.
    pub(crate) fn insert(
        &mut self,
        name: Vec<u8>,
        bytes: Vec<u8>,
    ) -> Result<Option<Vec<u8>>, AllocError>
        requires { IsPath name.items }
        ensures before { IfOk result (λ before. option_map (λ b. b.items) before ≡ at self.old name.items) }
        ensures ok { OnOk result (self.new ≡ map.insert self.old name.items bytes.items) }
        ensures err { OnErr result (self.new ≡ self.old) }
    {
        match self.held.insert(name, bytes) {
            Ok(before) => Ok(before),
            Err(_) => Err(AllocError),
        }
    }

    // Makes a name absent, and gives what it held before.
    pub(crate) fn remove(&mut self, name: &[u8]) -> Option<Vec<u8>>
        ensures before { option_map (λ b. b.items) result ≡ at self.old name.now }
        ensures removed { self.new ≡ map.remove self.old name.now }
    {
        self.held.remove(name)
    }

    // Adds bytes at the end of a file that is there, and gives the length that it had.
    pub(crate) fn append(&mut self, name: &[u8], bytes: &[u8]) -> Result<usize, AllocError>
        requires { IsSome (at self.old name.now) }
        ensures length { IfOk result (λ n. n ≡ length (unwrap_or (at self.old name.now) [])) }
        ensures ok { OnOk result (self.new ≡ map.insert self.old name.now (unwrap_or (at self.old name.now) [] ++ bytes.now)) }
        ensures err { OnErr result (self.new ≡ self.old) }
    {
        match self.held.get_mut(name) {
            Some(file) => {
                let length = file.as_slice().len();
                match file.extend_from_slice(bytes) {
                    Ok(()) => return Ok(length),
                    Err(_) => return Err(AllocError),
                }
            }
            None => Ok(0),
        }
    }

    // Cuts a file that is there to its first bytes.
    pub(crate) fn cut(&mut self, name: &[u8], length: usize)
        ensures { self.new ≡ cut name.now length (at self.old name.now) self.old }
    {
        match self.held.get_mut(name) {
            Some(file) => {
                file.truncate(length);
                return;
            }
            None => return,
        }
    }

    // Makes a name hold a copy of these bytes.
    pub(crate) fn set(&mut self, alloc: Global, name: &[u8], bytes: &[u8]) -> Result<(), AllocError>
        requires { IsPath name.now }
        ensures ok { OnOk result (self.new ≡ map.insert self.old name.now bytes.now) }
    {
        let name = Vec::from_slice(alloc, name)?;
        let bytes = Vec::from_slice(alloc, bytes)?;
        self.insert(name, bytes)?;
        Ok(())
    }

    // Makes a name hold a copy of these bytes, or nothing.
    pub(crate) fn give(
        &mut self,
        alloc: Global,
        name: &[u8],
        bytes: Option<&[u8]>,
    ) -> Result<(), AllocError>
        requires { IsPath name.now }
        ensures here { OnOk result (at self.new name.now ≡ option_map (λ b. b.now) bytes.entry) }
        ensures apart { OnOk result (SameBut name.now self.old self.new) }
    {
        match bytes {
            Some(bytes) => {
                self.set(alloc, name, bytes)?;
                Ok(())
            }
            None => {
                let _ = self.remove(name);
                Ok(())
            }
        }
    }

    // Goes back over a call.
    pub(crate) fn undo(&mut self, alloc: Global, did: &Did) -> Result<(), AllocError>
        ensures ok { OnOk result (self.new ≡ unheld did.now self.old) }
    {
        match did {
            Did::Put(name, Some(bytes)) => self.set(alloc, name.bytes(), bytes.as_slice()),
            Did::Put(name, None) => {
                let _ = self.remove(name.bytes());
                Ok(())
            }
            Did::Grown(name, length) => {
                self.cut(name.bytes(), *length);
                Ok(())
            }
            _ => Ok(()),
        }
    }

    // The same files.
    pub(crate) fn copy(&self) -> Result<Files, AllocError>
        ensures { IfOk result (λ files. files ≡ self.now) }
    {
        let held = self.held.clone()?;
        Ok(Files { held })
    }
}
