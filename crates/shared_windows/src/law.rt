ghost use Rattle.shared_windows.specs.Laws.{HeardByOneNumber, HeardWhereListed};

/// The laws of the interrupt numbers by which VMs hear of events, where the windows are sound: a VM has one exactly where it
/// lists the memory and the memory has the event, and it is the number of the window that the VM has there. The function
/// does nothing; its contract is the laws.
pub fn laws_of_windows()
    ensures listed { HeardWhereListed }
    ensures one { HeardByOneNumber }
{}
