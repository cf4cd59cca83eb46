// The grid of a surface's window: its values lie in the window (specs/ValueLaws.antt, specs/SurfaceLaws.antt), and in a window that is the whole domain they are the source's (specs/SourceLaws.antt). There is no code here.
#![tactic(auto)]
