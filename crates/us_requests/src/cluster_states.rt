ghost use Rattle.std.specs.Prelude.{◌≡◌, ℕ, ◌+◌, ◌-◌, ◌^◌, ◌<◌, ◌≤◌};

use std::marker::Model;

/// What is outstanding of a SID cluster: the bytes that it asked for and wasn't granted yet, below 2^62.
#[derive(Clone, Copy, Debug, PartialEq, Eq, Hash)]
pub struct ClusterState {
    outstanding: u64,
}

impl Model for ClusterState {
    ghost Value = { ℕ };

    ghost view = { λ state. state.outstanding };

    ghost invariant = { λ state. state.outstanding < 2 ^ 62 };

    ghost inverse = { λ outstanding. record { outstanding = outstanding } };
}

impl ClusterState {
    /// A cluster of which nothing is outstanding.
    pub fn new() -> ClusterState
        ensures { result ≡ 0 }
    {
        ClusterState { outstanding: 0 }
    }

    /// The cluster asks for so many bytes more.
    pub fn add(&mut self, bytes: u64)
        requires { self.old + bytes < 2 ^ 62 }
        ensures { self.new ≡ self.old + bytes }
    {
        self.outstanding += bytes;
    }

    /// So many of the outstanding bytes were granted.
    pub fn credit(&mut self, bytes: u64)
        requires { bytes ≤ self.old }
        ensures { self.new + bytes ≡ self.old }
    {
        self.outstanding -= bytes;
    }

    /// The bytes that are outstanding.
    pub fn outstanding(&self) -> u64
        ensures value { result ≡ self.now }
        ensures in_range { self.now < 2 ^ 62 }
    {
        self.outstanding
    }
}
