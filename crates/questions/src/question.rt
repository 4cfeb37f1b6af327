//! One question, and the questions of no table.

ghost use Rattle.std.specs.Prelude.{◌≡◌, map};
ghost use Rattle.kernel_laws.specs.Questions.{other_questions};

use kernel_laws::NamespaceType;
use kernel_laws::question_types::Question;

// The questions of no table, in their order.
pub(crate) fn other_questions() -> &'static [Question]
    ensures { result.now ≡ other_questions }
{
    &[
        Question::Namespace(NamespaceType::Cgroup),
        Question::Namespace(NamespaceType::Ipc),
        Question::Namespace(NamespaceType::Net),
        Question::Namespace(NamespaceType::Mnt),
        Question::Namespace(NamespaceType::Pid),
        Question::Namespace(NamespaceType::User),
        Question::Namespace(NamespaceType::Uts),
        Question::MapWx,
        Question::ProtectX,
        Question::ShmX,
        Question::Realtime,
        Question::Personality,
        Question::SuidBit,
    ]
}
