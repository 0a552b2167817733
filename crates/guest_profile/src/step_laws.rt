//! Steps of both controllers on the command pipe and on a status stream.
ghost use Rattle.guest_profile.specs.Steps.{CommandsAreTaken, CommandLinksAreFollowed, NoCommandEmpties};
ghost use Rattle.guest_profile.specs.Steps.{AnswersAreSent, AnswersAreSentAlike, StatusLinksAreFollowed, NoAnswerEmpties};

/// A step of the command pipe at a command in front: both have the same device, event, ring and buffers after it. At a Link the one
/// over memory follows it, and where nothing is in front its doorbell is used up: the profile's rings and device stay.
pub fn commands_agree()
    ensures taken { CommandsAreTaken }
    ensures link { CommandLinksAreFollowed }
    ensures none { NoCommandEmpties }
{}

/// A step of a status stream whose task's answer is due: the same answer in the same buffer, the same event, and the task is gone.
/// The same of a Link, and where nothing is in front.
pub fn answers_agree()
    ensures sent { AnswersAreSent }
    ensures alike { AnswersAreSentAlike }
    ensures link { StatusLinksAreFollowed }
    ensures none { NoAnswerEmpties }
{}
