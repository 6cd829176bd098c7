//! A script with each kind of input except labels, and one with labels, both about one sender, and the expected
//! answers. They are written from the rules of the gateway, and use none of its code.
use anyhow::Result;
use std::alloc::Global;

/// An input of the script: an order of the desk, or a packet.
#[derive(Clone, Copy)]
pub enum ScriptInput {
    /// The order that adds the sender as a contact.
    Add,
    /// A contact telegram of the sender.
    Contact,
    /// The order that opens the window and has queries answered.
    Open,
    /// A UTE query of the sender as an actuator.
    Actuator,
    /// A 4BS query of the sender as a sensor.
    Sensor,
    /// The order that lists the devices.
    List,
    /// A response of the radio module.
    Response,
    /// The order that removes the sender.
    Remove,
    /// The order that labels the sender. It is only given if the sender is a contact or unknown.
    Label,
    /// The order that reports the counters.
    Status,
}

/// The script. With enough memory and a database that does not fail its second `Remove` finds nobody.
pub const SCRIPT_INPUTS: [ScriptInput; 10] = [
    ScriptInput::Add,
    ScriptInput::Contact,
    ScriptInput::Open,
    ScriptInput::Actuator,
    ScriptInput::Sensor,
    ScriptInput::List,
    ScriptInput::Response,
    ScriptInput::Remove,
    ScriptInput::Remove,
    ScriptInput::Status,
];

/// The script with labels. With enough memory and a database that does not fail its second `Add` keeps the label, and
/// its second `Label` finds nobody.
pub const LABEL_SCRIPT_INPUTS: [ScriptInput; 9] = [
    ScriptInput::Add,
    ScriptInput::Label,
    ScriptInput::Contact,
    ScriptInput::Add,
    ScriptInput::List,
    ScriptInput::Remove,
    ScriptInput::Label,
    ScriptInput::Add,
    ScriptInput::Label,
];

/// What is known about the sender.
#[derive(Clone, Copy, PartialEq, Eq)]
pub enum SenderRecord {
    Nothing,
    Contact,
    /// It is a contact with its label.
    Labelled,
    Actuator,
    Sensor,
}

impl SenderRecord {
    // Whether it is a contact, with a label or without.
    fn is_contact(self) -> bool {
        self == SenderRecord::Contact || self == SenderRecord::Labelled
    }
}

pub const OK_LINE: &[u8] = b"{\"type\":\"ok\"}\n";

pub const SYNTAX_ERROR_LINE: &[u8] = b"{\"error\":\"syntax\",\"type\":\"error\"}\n";

pub const STORE_ERROR_LINE: &[u8] = b"{\"error\":\"store\",\"type\":\"error\"}\n";

const CONTACT_READING_LINE: &str = "{\"dbm\":-45,\"eep\":\"D5-00-01\",\"id\":\"01800ABC\",\
    \"readings\":[{\"name\":\"CO\",\"word\":\"closed\"}],\"type\":\"reading\"}\n";

const RESPONSE_LINE: &str = "{\"code\":0,\"data\":\"\",\"name\":\"OK\",\"type\":\"response\"}\n";

const UNKNOWN_DEVICE_LINE: &str = "{\"error\":\"unknown_device\",\"type\":\"error\"}\n";

// What is sent by radio for the two queries.
const ACTUATOR_REPLY: &str = "55000d0701fdd4910146001201d2ff800000000301800abcff00f3";

const SENSOR_REPLY: &str = "55000a0701eba5082846f0ff800000000301800abcff00d8";

impl ScriptInput {
    // Its line in a script, without an end.
    pub(crate) fn line(self) -> &'static [u8] {
        match self {
            ScriptInput::Add => b"add 01800ABC D5-00-01",
            ScriptInput::Contact => b"S 55000707017AD50901800ABC0001FFFFFFFF2D001F",
            ScriptInput::Open => b"learn on answer",
            ScriptInput::Actuator => b"S 55000D0701FDD4A00146001201D201800ABC0001FFFFFFFF2D008A",
            ScriptInput::Sensor => b"S 55000A0701EBA50828468001800ABC0001FFFFFFFF2D00C8",
            ScriptInput::List => b"list",
            ScriptInput::Response => b"S 5500010002650000",
            ScriptInput::Remove => b"remove 01800ABC",
            ScriptInput::Label => b"label 01800ABC Door \"A\"",
            ScriptInput::Status => b"status",
        }
    }

    // The digits of a packet. `None`: it is an order.
    pub(crate) fn digits(self) -> Option<&'static [u8]> {
        self.line().strip_prefix(b"S ".as_slice())
    }

    // Whether its answer may need the database.
    pub(crate) fn may_need_database(self) -> bool {
        match self {
            ScriptInput::Open | ScriptInput::Response | ScriptInput::Status => false,
            _ => true,
        }
    }

    // What is known about the sender once an acknowledgement says that this input learned, forgot or labelled it, if
    // it does.
    pub(crate) fn record_after_acknowledgement(self, record: SenderRecord) -> Option<SenderRecord> {
        match self {
            ScriptInput::Add if record == SenderRecord::Labelled => Some(record),
            ScriptInput::Add => Some(SenderRecord::Contact),
            ScriptInput::Label if record.is_contact() => Some(SenderRecord::Labelled),
            ScriptInput::Actuator => Some(SenderRecord::Actuator),
            ScriptInput::Sensor => Some(SenderRecord::Sensor),
            ScriptInput::Remove if record != SenderRecord::Nothing => Some(SenderRecord::Nothing),
            _ => None,
        }
    }
}

/// The answer to an input.
#[derive(Drop)]
pub struct ExpectedAnswer {
    /// The digits of the radio bytes, or none.
    pub radio: &'static str,
    /// The text for the desk.
    pub desk: String,
}

impl ExpectedAnswer {
    // Appends what a replay writes to this text.
    pub(crate) fn add_to(&self, text: &mut Vec<u8>) -> Result<()> {
        if !self.radio.is_empty() {
            text.extend_from_slice(b"S ")?;
            text.extend_from_slice(self.radio.as_bytes())?;
            text.push(b'\n')?;
        }
        text.extend_from_slice(self.desk.as_bytes())?;
        Ok(())
    }
}

/// What the gateway knows.
#[derive(Clone, Copy)]
pub struct ExpectedState {
    /// What it knows about the sender.
    pub record: SenderRecord,
    /// How many other senders it knows. They are contacts, and have the IDs from 1 on.
    pub other_count: u32,
    is_answering: bool,
    ignored: u64,
    readings: u64,
    refused: u64,
    responses: u64,
    teach: u64,
}

impl ExpectedState {
    // The state of a new gateway that finds this about the sender.
    pub(crate) fn new(record: SenderRecord, other_count: u32) -> ExpectedState {
        ExpectedState {
            record,
            other_count,
            is_answering: false,
            ignored: 0,
            readings: 0,
            refused: 0,
            responses: 0,
            teach: 0,
        }
    }

    // An input failed.
    pub(crate) fn fail(&mut self) {
        self.refused = self.refused.saturating_add(1);
    }

    // Applies an input, and returns its answer.
    pub(crate) fn apply(&mut self, alloc: Global, input: ScriptInput) -> Result<ExpectedAnswer> {
        match input {
            ScriptInput::Contact => self.receive_contact_telegram(alloc),
            ScriptInput::Actuator => self.learn(alloc, SenderRecord::Actuator, ACTUATOR_REPLY),
            ScriptInput::Sensor => self.learn(alloc, SenderRecord::Sensor, SENSOR_REPLY),
            _ => Ok(ExpectedAnswer {
                radio: "",
                desk: self.apply_without_radio(alloc, input)?,
            }),
        }
    }

    // Applies an input without radio bytes, and returns the text for the desk.
    fn apply_without_radio(&mut self, alloc: Global, input: ScriptInput) -> Result<String> {
        match input {
            ScriptInput::Add => {
                self.record = input
                    .record_after_acknowledgement(self.record)
                    .unwrap_or(SenderRecord::Contact);
                teach_line(alloc, SenderRecord::Contact, "accepted")
            }
            ScriptInput::Label => self.label(alloc),
            ScriptInput::Open => {
                self.is_answering = true;
                Ok(String::from_utf8_lossy(alloc, OK_LINE)?)
            }
            ScriptInput::Response => {
                self.responses = self.responses.saturating_add(1);
                Ok(RESPONSE_LINE.to_string(alloc)?)
            }
            ScriptInput::List => self.listed(alloc),
            ScriptInput::Remove => self.remove(alloc),
            _ => self.status(alloc),
        }
    }

    fn receive_contact_telegram(&mut self, alloc: Global) -> Result<ExpectedAnswer> {
        let is_read = self.record.is_contact();
        if is_read {
            self.readings = self.readings.saturating_add(1);
        } else {
            self.ignored = self.ignored.saturating_add(1);
        }
        let text = if is_read { CONTACT_READING_LINE } else { "" };
        Ok(ExpectedAnswer {
            radio: "",
            desk: text.to_string(alloc)?,
        })
    }

    fn learn(
        &mut self,
        alloc: Global,
        record: SenderRecord,
        radio: &'static str,
    ) -> Result<ExpectedAnswer> {
        self.teach = self.teach.saturating_add(1);
        self.record = record;
        let desk = teach_line(alloc, record, "accepted")?;
        Ok(ExpectedAnswer { radio, desk })
    }

    fn remove(&mut self, alloc: Global) -> Result<String> {
        let record = self.record;
        if record == SenderRecord::Nothing {
            return Ok(UNKNOWN_DEVICE_LINE.to_string(alloc)?);
        }
        self.record = SenderRecord::Nothing;
        teach_line(alloc, record, "deleted")
    }

    fn label(&mut self, alloc: Global) -> Result<String> {
        if self.record == SenderRecord::Nothing {
            return Ok(UNKNOWN_DEVICE_LINE.to_string(alloc)?);
        }
        self.record = SenderRecord::Labelled;
        Ok(String::from_utf8_lossy(alloc, OK_LINE)?)
    }

    pub(crate) fn listed(&self, alloc: Global) -> Result<String> {
        let mut text = String::new(alloc);
        for id in 1..=self.other_count {
            let line = format!(in alloc;
                "{{\"eep\":\"D5-00-01\",\"id\":\"{id:08X}\",\"label\":\"\",\"maker\":null,\"type\":\"device\"}}\n"
            )?;
            text.push_str(line.as_str())?;
        }
        let mut count = self.other_count;
        if self.record != SenderRecord::Nothing {
            let (eep, maker) = eep_and_maker(self.record);
            let line = format!(in alloc;
                "{{\"eep\":\"{eep}\",\"id\":\"01800ABC\",\"label\":\"{}\",\"maker\":{maker},\"type\":\"device\"}}\n",
                label_of(self.record)
            )?;
            text.push_str(line.as_str())?;
            count = count.saturating_add(1);
        }
        let line = format!(in alloc; "{{\"count\":{count},\"type\":\"list\"}}\n")?;
        text.push_str(line.as_str())?;
        Ok(text)
    }

    pub(crate) fn status(&self, alloc: Global) -> Result<String> {
        let mode = if self.is_answering {
            "answer"
        } else {
            "closed"
        };
        Ok(format!(in alloc;
            "{{\"ignored\":{},\"mode\":\"{mode}\",\"readings\":{},\"refused\":{},\"responses\":{},\"teach\":{},\
            \"type\":\"status\"}}\n",
            self.ignored, self.readings, self.refused, self.responses, self.teach
        )?)
    }
}

fn eep_and_maker(record: SenderRecord) -> (&'static str, &'static str) {
    match record {
        SenderRecord::Nothing => ("", ""),
        SenderRecord::Contact | SenderRecord::Labelled => ("D5-00-01", "null"),
        SenderRecord::Actuator => ("D2-01-12", "70"),
        SenderRecord::Sensor => ("A5-02-05", "70"),
    }
}

// The label of the sender in a list.
fn label_of(record: SenderRecord) -> &'static str {
    match record {
        SenderRecord::Labelled => "Door \\\"A\\\"",
        _ => "",
    }
}

// The line with the outcome for the sender.
fn teach_line(alloc: Global, record: SenderRecord, outcome: &str) -> Result<String> {
    let (eep, maker) = eep_and_maker(record);
    Ok(format!(in alloc;
        "{{\"eep\":\"{eep}\",\"id\":\"01800ABC\",\"maker\":{maker},\"result\":\"{outcome}\",\"type\":\"teach\"}}\n"
    )?)
}

/// The last state of a gateway, and its output.
#[derive(Drop)]
pub struct ScriptOutcome {
    pub state: ExpectedState,
    /// What a replay writes.
    pub replay_output: Vec<u8>,
    /// What a live gateway sends by radio.
    pub radio: Vec<u8>,
    /// What it sends to the desk.
    pub desk: Vec<u8>,
}

// The outcome for a new gateway with these inputs.
pub(crate) fn outcome_of(alloc: Global, inputs: &[ScriptInput]) -> Result<ScriptOutcome> {
    let mut outcome = ScriptOutcome {
        state: ExpectedState::new(SenderRecord::Nothing, 0),
        replay_output: Vec::new(alloc),
        radio: Vec::new(alloc),
        desk: Vec::new(alloc),
    };
    for input in inputs {
        let answer = outcome.state.apply(alloc, *input)?;
        answer.add_to(&mut outcome.replay_output)?;
        outcome
            .radio
            .extend_from_slice(&hex::decode(alloc, answer.radio)?)?;
        outcome.desk.extend_from_slice(answer.desk.as_bytes())?;
    }
    Ok(outcome)
}

// The outcome for a new gateway with this many first inputs of the script.
pub(crate) fn outcome_of_first(alloc: Global, input_count: usize) -> Result<ScriptOutcome> {
    outcome_of(
        alloc,
        &SCRIPT_INPUTS[..input_count.min(SCRIPT_INPUTS.len())],
    )
}
