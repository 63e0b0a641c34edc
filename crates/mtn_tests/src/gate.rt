// A gate at which pieces of work meet.
use mtn_case_records::meeting::Meeting;
use mtn_pieces::Gate;

// A gate where a piece waits for another.
#[derive(Drop)]
pub struct MeetingGate<'a> {
    pub meeting: &'a Meeting,
}

impl Gate for MeetingGate<'_> {
    fn pass(&self, piece: usize) {
        self.meeting.pass(piece);
    }
}
