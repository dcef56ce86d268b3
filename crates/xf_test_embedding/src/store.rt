//! A store of our own: it gives prices, and takes orders.

ghost use Rattle.std.specs.Prelude.{◌≡◌, None};

use std::alloc::{AllocError, Global};
use std::marker::Model;
use xf_io::{Bytes, Failed};
use xf_store::{FOUND_LIMIT, GetFault, Got, Store};

/// Under `prices.json` stand the prices. What is put under another name is taken as an order. A put that finds no memory fails, as does one
/// of prices.
#[derive(Drop)]
pub struct Shop<'a> {
    alloc: Global,
    prices: &'a str,
    orders: Vec<String>,
    failed: u64,
}

impl<'a> Model for Shop<'a> {
    ghost use Rattle.std.specs.Prelude.{ℕ};

    ghost Value = { ℕ };

    ghost view = { λ s. s.failed };
}

impl<'a> Shop<'a> {
    pub fn new(alloc: Global, prices: &'a str) -> Self {
        Shop {
            alloc,
            prices,
            orders: Vec::new(alloc),
            failed: 0,
        }
    }

    /// What was put, in order, each behind its name.
    pub fn orders(&self) -> &[String] {
        &self.orders
    }

    fn take_order(&mut self, name: &str, bytes: &[u8]) -> Result<(), AllocError>
        ensures { self.new ≡ self.old }
    {
        let text = String::from_utf8_lossy(self.alloc, bytes)?;
        self.orders.push(format!(in self.alloc; "{name}: {text}")?)?;
        Ok(())
    }
}

impl Store for Shop<'_> {
    ghost held = { λ _. None };

    ghost calls = { λ _. None };

    ghost to_come = { λ _. None };

    ghost faults = { λ failed. failed };

    fn put(&mut self, name: &str, bytes: &[u8]) -> Result<(), Failed> {
        if name != "prices.json" && self.take_order(name, bytes).is_ok() {
            return Ok(());
        }
        self.failed = self.failed.saturating_add(1);
        Err(Failed)
    }

    fn get(&mut self, name: &str, into: &mut Bytes) -> Result<Got, GetFault> {
        if name != "prices.json" {
            return Ok(Got::Absent);
        }
        if self.prices.len() > FOUND_LIMIT {
            return Ok(Got::TooLong);
        }
        *into = Bytes::from_vec(Vec::from_slice(self.alloc, self.prices.as_bytes())?);
        Ok(Got::Found)
    }
}
