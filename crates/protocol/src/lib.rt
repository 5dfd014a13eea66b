// The session's protocol: the types that its rules speak of. The rules are definitions and stand in specs/; there is no code here.
#![tactic(auto)]

use ft_number::FtNumber;

// What InitWait bears: our proposed timeout in milliseconds.
#[derive(Clone, Copy)]
pub struct Waiting {
    pub timeout: u32,
}

// What UpFT bears: the count sent on this connection, and whether the connection is resumed: both ends' Inits had R set.
#[derive(Clone, Copy)]
pub struct Progress {
    pub sent: u32,
    pub resumed: bool,
}

// 01's phases.
#[derive(Clone, Copy)]
pub enum Phase {
    Idle,
    InitWait(Waiting),
    UpFT(Progress),
    UpPlain,
    Failed,
}

// A case for each number of 01's answer table; `answer_number` gives the number.
#[derive(Clone, Copy)]
pub enum Answer {
    Done,
    WrongPhase,
    ZeroDistance,
    LengthOutOfRange,
    Malformed,
    KindNotSent,
    LabelNotAllowed,
    StoreFull,
    NothingUnsent,
    OutputTooShort,
    BadBlock(usize),
    BadField(usize),
    WrongSize,
    NoLabelWord,
    RequestsStopped,
    RequestOutsideUpFt,
    OutOfTurn,
    NoWordForMapping,
    MalformedReceived,
    BadInit,
    ZeroNumber,
    FtTlvInPlain,
    ProtectionWrong,
    ProtectionMissing,
    AckSequenceError,
    ParametersChanged,
    StatusFatal,
}

// What an answer leaves: nothing changed, the connection failed, the state released, or the call done.
#[derive(Clone, Copy)]
pub enum Effect {
    Nothing,
    Fail,
    Release,
    Act,
}

// What both ends keep of the two Inits: the agreed timeout in milliseconds, and the peer's two parameters that are read.
#[derive(Clone, Copy)]
pub struct Terms {
    pub timeout: u32,
    pub keepalive: u16,
    pub maxpdu: u16,
}

// How a session begins with the peer's Init; Resumed with the count of messages that its ACK releases, and that ACK.
#[derive(Clone, Copy)]
pub enum Start {
    Plain,
    Fresh(Terms),
    Resumed(Terms, u32, FtNumber),
}
