//! A shelf in memory.
ghost use Rattle.std.specs.Prelude.{◌≡◌, ◌≢◌, ℕ, ◌<◌, ◌≤◌, List, length, take, drop, None, Some, IfOk, OnOk, OnErr, MatchOption, IsErr, is_err, ◌↔◌};
ghost use Rattle.rb_edge.specs.Count.{Rose};
ghost use Rattle.rb_edge.specs.Shelf.{ReadsAt};
ghost use Rattle.rb_edge.specs.Lookup.{lookup};

use crate::shelf::Shelf;
use crate::sink::Failed;
use rb_base::NoMemory;
use std::alloc::Global;

#[derive(Drop)]
pub struct File {
    name: String,
    bytes: Vec<u8>,
}

/// Files in memory. Reading fails at the calls that are chosen when the shelf is made, and at
/// names that no file has.
#[derive(Drop)]
pub struct MemShelf {
    alloc: Global,
    files: Vec<File>,
    fails: Vec<u64>,
    calls: u64,
    chosen: u64,
    failed: u64,
}

// The bytes of the file of a name.
fn find<'f>(files: &'f [File], name: &str) -> Option<&'f [u8]>
    ensures { MatchOption result
        (lookup files.now name.now ≡ None)
        (λ bytes. lookup files.now name.now ≡ Some bytes.now) }
{
    for file in files {
        if file.name.as_str() == name {
            return Some(&file.bytes);
        }
    }
    None
}

// Copies what there is of the bytes from a place on.
fn copy_from(bytes: &[u8], at: u64, into: &mut [u8]) -> usize
    ensures count { result ≤ length into.new }
    ensures copied { take result into.new ≡ take result (drop at bytes.now) }
    ensures ended { 0 < length into.new → (result ≡ 0) ↔ (length bytes.now ≤ at) }
{
    if at >= bytes.len() as u64 {
        return 0;
    }
    let rest = &bytes[at as usize..];
    let count = rest.len().min(into.len());
    into[..count].copy_from_slice(&rest[..count]);
    count
}

impl MemShelf {
    ghost use Rattle.rb_edge.specs.MemShelf.{files_of, course, faults_of, start, Adds};

    /// A shelf with no file. Reading fails at the calls that `fails` numbers, the first call
    /// being 0. The only error is want of memory.
    pub fn new(alloc: Global, fails: &[u64]) -> Result<MemShelf, NoMemory>
        ensures empty { IfOk result (λ shelf. (name : List ℕ) → files_of shelf name ≡ None) }
        ensures course { IfOk result (λ shelf. course shelf ≡ start fails.now) }
        ensures no_faults { IfOk result (λ shelf. (name : List ℕ) → faults_of shelf name ≡ 0) }
    {
        Ok(MemShelf {
            alloc,
            files: Vec::new(alloc),
            fails: fails.to_vec(alloc)?,
            calls: 0,
            chosen: 0,
            failed: 0,
        })
    }

    /// Adds a file of a name that no file has. The only error is want of memory, after which the files are those before.
    pub fn put(&mut self, name: &str, bytes: &[u8]) -> Result<(), NoMemory>
        requires { files_of self.old name.now ≡ None }
        ensures added { OnOk result
            (Adds (files_of self.old) (files_of self.new) name.now bytes.now) }
        ensures err { OnErr result (files_of self.new ≡ files_of self.old) }
        ensures course { course self.new ≡ course self.old }

        // The count of faults for the name is from now on that of the chosen calls alone.
        ensures faults { OnOk result (faults_of self.new name.now ≡ (course self.old).chosen) }
        ensures other_faults { (any : List ℕ) → any ≢ name.now
            → faults_of self.new any ≡ faults_of self.old any }
    {
        let name = String::from_str(self.alloc, name)?;
        let bytes = bytes.to_vec(self.alloc)?;
        self.files.push(File { name, bytes })?;
        Ok(())
    }
}

impl Shelf for MemShelf {
    ghost use Rattle.rb_edge.specs.MemShelf.{files_of, course, faults_of, IsToFail, GoesOn};

    ghost contents = { λ s. Some (files_of s) };

    ghost faults = { faults_of };

    fn read(&mut self, name: &str, at: u64, into: &mut [u8]) -> Result<usize, Failed>
        ensures count { IfOk result (λ n. n ≤ length into.new) }
        ensures bytes { IfOk result (λ n. ReadsAt (files_of self.old) name.now at into.new n) }
        ensures unchanged { files_of self.new ≡ files_of self.old }
        ensures later { (any : List ℕ) → faults_of self.old any ≤ faults_of self.new any }
        ensures failed { OnErr result
            (Rose (faults_of self.old name.now) (faults_of self.new name.now)) }

        // It fails exactly at the calls that were chosen and at names that no file has.
        ensures fails { IsErr result ↔ IsToFail self.old name.now }
        ensures goes_on { GoesOn (course self.old) (course self.new) (is_err result) }
    {
        let chosen = self.fails.contains(&self.calls);
        self.calls = self.calls.saturating_add(1);
        if chosen {
            self.chosen = self.chosen.saturating_add(1);
            self.failed = self.failed.saturating_add(1);
            return Err(Failed);
        }
        match find(&self.files, name) {
            Some(bytes) => Ok(copy_from(bytes, at, into)),
            None => {
                self.failed = self.failed.saturating_add(1);
                Err(Failed)
            }
        }
    }
}
