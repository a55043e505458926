// A carrier of which each call's answer is printed.
use carrier::{Carrier, GREATEST_LENGTH, Keeping};
use std::io;
use terms::role::Role;

#[derive(Drop)]
pub struct Shown<'a, C> {
    rt: &'a HostRuntime,
    carrier: C,
}

impl<'a, C: Carrier> Shown<'a, C> {
    pub fn new(rt: &'a HostRuntime, carrier: C) -> Shown<'a, C> {
        Shown { rt, carrier }
    }

    pub fn largest(&self) -> io::Result<()> {
        let largest = self.carrier.max_len();
        println!(self.rt; "largest length {largest}")
    }

    pub fn put(&mut self, from: Role, frame: &[u8]) -> io::Result<()> {
        let len = frame.len();
        match self.carrier.put(from, frame) {
            Ok(Keeping::Kept) => println!(self.rt; "put {from:?} {len}: kept"),
            Ok(Keeping::NotKept) => println!(self.rt; "put {from:?} {len}: not kept"),
            Err(refusal) => println!(self.rt; "put {from:?} {len}: {refusal:?}"),
        }
    }

    pub fn fetch_into(&mut self, at: Role, buf: &mut [u8]) -> io::Result<()> {
        match self.carrier.fetch(at, buf) {
            Ok(Some(n)) => {
                let frame = &buf[..n];
                println!(self.rt; "fetch {at:?}: {frame:?}")
            }
            Ok(None) => println!(self.rt; "fetch {at:?}: none"),
            Err(refusal) => println!(self.rt; "fetch {at:?}: {refusal:?}"),
        }
    }

    // A fetch with a buffer that is long enough.
    pub fn fetch(&mut self, at: Role) -> io::Result<()> {
        self.fetch_into(at, &mut [0u8; GREATEST_LENGTH])
    }
}
