// One request or result on a bench: each method hands back a whole new bench by value, and leaves the old one to its caller.
ghost use Rattle.keeper_bench.specs.Methods.{record_for, Gives};

use crate::Bench;
use record_kinds::Record;
use request_answer::Reply;

// Why a request has no reply: the bench is not sound (21).
#[derive(Clone, Copy, Debug, PartialEq, Eq)]
pub struct Unsound;

// The record's reply, and the bench it leaves.
#[derive(Clone, Copy)]
pub struct Requested {
    pub outcome: Result<Reply, Unsound>,
    pub bench: Bench,
}

impl Bench {
    // One record. A bench that is not sound comes back as it was.
    fn take(mut self, kind: u8, device: u8, value: u16) -> Requested
        ensures { Gives self (record_for kind device value) result }
    {
        if !self.sound() {
            return Requested {
                outcome: Err(Unsound),
                bench: self,
            };
        }
        let mut bytes = self.bytes;
        let mut words = self.words;
        let first = links::index(&bytes, &words);
        let r = Record {
            kind: kind,
            device: device,
            value: value,
        };
        let reply = record_step::step(&mut bytes, &mut words, &first, r);
        self.bytes = bytes;
        self.words = words;
        Requested {
            outcome: Ok(reply),
            bench: self,
        }
    }

    // Kind 1.
    pub fn enable(mut self, device: u8) -> Requested
        ensures { Gives self (record_for 1 device 0) result }
    {
        self.take(1, device, 0)
    }

    // Kind 2.
    pub fn disable(mut self, device: u8) -> Requested
        ensures { Gives self (record_for 2 device 0) result }
    {
        self.take(2, device, 0)
    }

    // Kind 3.
    pub fn get(mut self, device: u8) -> Requested
        ensures { Gives self (record_for 3 device 0) result }
    {
        self.take(3, device, 0)
    }

    // Kind 4: get and wake.
    pub fn get_wake(mut self, device: u8) -> Requested
        ensures { Gives self (record_for 4 device 0) result }
    {
        self.take(4, device, 0)
    }

    // Kind 5.
    pub fn put(mut self, device: u8) -> Requested
        ensures { Gives self (record_for 5 device 0) result }
    {
        self.take(5, device, 0)
    }

    // Kind 6: put and idle.
    pub fn put_idle(mut self, device: u8) -> Requested
        ensures { Gives self (record_for 6 device 0) result }
    {
        self.take(6, device, 0)
    }

    // Kind 7.
    pub fn idle(mut self, device: u8) -> Requested
        ensures { Gives self (record_for 7 device 0) result }
    {
        self.take(7, device, 0)
    }

    // Kind 8.
    pub fn suspend(mut self, device: u8) -> Requested
        ensures { Gives self (record_for 8 device 0) result }
    {
        self.take(8, device, 0)
    }

    // Kind 9.
    pub fn wake(mut self, device: u8) -> Requested
        ensures { Gives self (record_for 9 device 0) result }
    {
        self.take(9, device, 0)
    }

    // Kind 10.
    pub fn set_active(mut self, device: u8) -> Requested
        ensures { Gives self (record_for 10 device 0) result }
    {
        self.take(10, device, 0)
    }

    // Kind 11.
    pub fn set_suspended(mut self, device: u8) -> Requested
        ensures { Gives self (record_for 11 device 0) result }
    {
        self.take(11, device, 0)
    }

    // Kind 12, to a value of 0 or 1.
    pub fn ignore_children(mut self, device: u8, value: u16) -> Requested
        ensures { Gives self (record_for 12 device value) result }
    {
        self.take(12, device, value)
    }

    // Kind 13: the result of the open callback, a value of 0 or less as it stands in a record.
    pub fn result(mut self, device: u8, value: u16) -> Requested
        ensures { Gives self (record_for 13 device value) result }
    {
        self.take(13, device, value)
    }
}
