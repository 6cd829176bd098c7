//! A device store that is one variable, to show that the gateway runs over any device store.
ghost use Rattle.std.specs.Prelude.{◌≡◌, [], ℕ};

use crate::gateways::{BASE, replay_output_of};
use crate::report::Report;
use anyhow::Result;
use gateway_core::GatewayOver;
use learned_devices::{Device, DeviceStore, Label, LearnFault, StoreFault};
use std::alloc::{AllocError, Global};

// A device store for one device, which is lost when the program ends. It guarantees nothing: the premise of its
// contracts (`honest`) never holds.
#[derive(Drop)]
struct OneDeviceStore {
    alloc: Global,
    device: Option<Device>,
    answers: bool,
}

impl OneDeviceStore {
    fn check_that_it_answers(&self) -> Result<(), StoreFault> {
        if self.answers {
            Ok(())
        } else {
            Err(StoreFault::store_failed())
        }
    }

    fn holds_sender(&self, id: u32) -> bool {
        self.device.as_ref().is_some_and(|device| device.id == id)
    }
}

impl DeviceStore for OneDeviceStore {
    ghost use Rattle.std.specs.Prelude.{None};

    ghost store_state = { λ _.
        record { honest = ⊥; holds = λ _. ⊥; may_recover = λ _. ⊥; reopenable = ⊥; commits = None } };

    ghost wrote = { λ _ _ _ _. ⊥ };

    fn find(&mut self, id: u32) -> Result<Option<Device>, StoreFault> {
        self.check_that_it_answers()?;
        Ok(match &self.device {
            Some(device) if device.id == id => Some(device.copied()),
            _ => None,
        })
    }

    fn put(&mut self, device: Device) -> Result<(), LearnFault> {
        self.check_that_it_answers()?;
        if self.device.is_some() && !self.holds_sender(device.id) {
            return Err(LearnFault::Full);
        }
        self.device = Some(device);
        Ok(())
    }

    fn delete(&mut self, id: u32) -> Result<(), StoreFault> {
        self.check_that_it_answers()?;
        if self.holds_sender(id) {
            self.device = None;
        }
        Ok(())
    }

    fn relabel(&mut self, id: u32, label: Label) -> Result<bool, StoreFault> {
        self.check_that_it_answers()?;
        match &mut self.device {
            Some(device) if device.id == id => {
                device.label = label;
                Ok(true)
            }
            _ => Ok(false),
        }
    }

    fn all(&mut self) -> Result<Vec<Device>, StoreFault> {
        self.check_that_it_answers()?;
        let mut devices = Vec::with_capacity(self.alloc, 1)?;
        if let Some(device) = &self.device {
            devices
                .push(device.copied())
                .map_err(|_| StoreFault::from(AllocError))?;
        }
        Ok(devices)
    }
}

const CASES: [(&str, bool, &[u8], &[u8]); 2] = [
    (
        "a store of one device",
        true,
        b"add 01800ABC D5-00-01\nS 55000707017AD50901800ABC0001FFFFFFFF2D001F\nadd 01800ABD D5-00-01\n\
        label 01800ABC Door\nlabel 01800ABD Door\nlist\nremove 01800ABC\nlist\n",
        b"{\"eep\":\"D5-00-01\",\"id\":\"01800ABC\",\"maker\":null,\"result\":\"accepted\",\"type\":\"teach\"}\n\
        {\"dbm\":-45,\"eep\":\"D5-00-01\",\"id\":\"01800ABC\",\"readings\":[{\"name\":\"CO\",\"word\":\"closed\"}],\
        \"type\":\"reading\"}\n\
        {\"error\":\"full\",\"type\":\"error\"}\n\
        {\"type\":\"ok\"}\n\
        {\"error\":\"unknown_device\",\"type\":\"error\"}\n\
        {\"eep\":\"D5-00-01\",\"id\":\"01800ABC\",\"label\":\"Door\",\"maker\":null,\"type\":\"device\"}\n\
        {\"count\":1,\"type\":\"list\"}\n\
        {\"eep\":\"D5-00-01\",\"id\":\"01800ABC\",\"maker\":null,\"result\":\"deleted\",\"type\":\"teach\"}\n\
        {\"count\":0,\"type\":\"list\"}\n",
    ),
    (
        "a store that does not answer",
        false,
        b"add 01800ABC D5-00-01\nlabel 01800ABC Door\nlist\nlearn on\n",
        b"{\"error\":\"store\",\"type\":\"error\"}\n{\"error\":\"store\",\"type\":\"error\"}\n\
        {\"error\":\"store\",\"type\":\"error\"}\n{\"type\":\"ok\"}\n",
    ),
];

pub(crate) fn run_cases(rt: &HostRuntime, report: &mut Report) -> Result<()> {
    let alloc = rt.alloc();
    for (name, answers, script, expected_output) in CASES {
        let store = OneDeviceStore {
            alloc,
            device: None,
            answers,
        };
        let mut gateway = GatewayOver::new(alloc, store, BASE)?;
        let output = replay_output_of(alloc, &mut gateway, script)?;
        report.add_case(rt, name, output.as_slice() == expected_output)?;
    }
    Ok(())
}
